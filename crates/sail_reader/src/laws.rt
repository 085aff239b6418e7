//! Laws of texts and of what is read of them, over the definitions alone.

ghost use Rattle.std.specs.Prelude.{◌≡◌, List, Ok};
ghost use Rattle.sail_grammar.specs.Spelling.{IsSpelling};
ghost use Rattle.sail_reader.specs.Reading.{read_text};
ghost use Rattle.sail_syntax.specs.Program.{Definition};
ghost use Rattle.sail_syntax.specs.Tree.{Text};

/// What is read of a text is what the text spells, and what it spells is read of it. So a text spells at most one program.
pub fn spelled_texts()
    ensures found { (text : Text) (ds : List Definition) → read_text text ≡ Ok ds → IsSpelling text ds }
    ensures only { (text : Text) (ds : List Definition) → IsSpelling text ds → read_text text ≡ Ok ds }
    ensures one { (text : Text) (ds es : List Definition) → IsSpelling text ds → IsSpelling text es → ds ≡ es }
{}
