//! Laws of images, over the definitions alone.

ghost use Rattle.std.specs.Prelude.{◌≡◌, ◌≢◌, ◌≤◌, ◌<◌, ◌↔◌, ℕ, true, false, List, [], ◌∷◌, ◌++◌, All, Contains, IsTrue, Ok, Some, None};
ghost use Rattle.elf_image.specs.declared.segment.Segment.{Segment};
ghost use Rattle.elf_image.specs.Fields.{has_magic};
ghost use Rattle.elf_image.specs.Segments.{end, segments_of};
ghost use Rattle.elf_image.specs.Overlaps.{shares, least_overlap};
ghost use Rattle.elf_image.specs.Symbols.{Symbol, name_in, value_of};
ghost use Rattle.elf_image.specs.Image.{Image, image_of};
ghost use Rattle.elf_image.specs.Laws.{AreApart, HaveCommon, HoldsFile, HoldsSegments, IsFirstValue, IsLeastPair};

/// Of an ELF file that has an image, each address of a segment has the file's byte below `p_filesz` and zero from there
/// up to `p_memsz`, no two segments share an address, and no other address has a byte. Of another file, the addresses
/// from `RAW_ADDRESS` on have its bytes, and there are no symbols.
pub fn bytes_of_images(file: &[u8])
    ensures elf { (i : Image) → image_of file.now ≡ Ok i → has_magic file.now ≡ true
        → (ss : List Segment) × (segments_of file.now ≡ Ok ss) × AreApart ss × HoldsSegments file.now ss i.memory }
    ensures raw { (i : Image) → image_of file.now ≡ Ok i → has_magic file.now ≡ false → HoldsFile file.now i.memory × (i.symbols ≡ []) }
{}

/// The pair of segments that is reported shares an address, and no lesser one does; where none is reported, no two
/// segments do. Segments that touch, one beginning where the other ends, share none.
pub fn least_overlaps()
    ensures share { (s t : Segment) → IsTrue (shares s t) ↔ HaveCommon s t }
    ensures touch { (s t : Segment) → end s ≡ t.addr → ¬ HaveCommon s t }
    ensures pair { (ss : List Segment) (s t : Segment) → least_overlap ss ≡ Some (s, t) → IsLeastPair ss s t }
    ensures no_pair { (ss : List Segment) → least_overlap ss ≡ None → AreApart ss }
{}

/// The value of a name is that of the first symbol that has it; where it has no value, no symbol has it.
pub fn first_values(name: &[u8])
    ensures value { (ss : List Symbol) (v : ℕ) → (value_of name.now ss ≡ Some v) ↔ IsFirstValue ss name.now v }
    ensures no_value { (ss : List Symbol) → (value_of name.now ss ≡ None) ↔ All (λ s. s.0 ≢ name.now) ss }
{}

/// The name that bytes begin with is what stands before their first zero; without a zero there is none.
pub fn names(bytes: &[u8])
    ensures name { (name : List ℕ) → (name_in bytes.now ≡ Some name)
        ↔ (All (λ b. b ≢ 0) name × ((rest : List ℕ) × (bytes.now ≡ name ++ 0 ∷ rest))) }
    ensures no_name { (name_in bytes.now ≡ None) ↔ All (λ b. b ≢ 0) bytes.now }
{}
