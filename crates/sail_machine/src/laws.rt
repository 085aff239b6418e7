//! Laws of the machine, over the definitions alone.

ghost use Rattle.std.specs.Prelude.{◌≡◌, ◌++◌, ◌<◌, ℕ, List, Ok, Err};
ghost use Rattle.sail_grammar.specs.Spelling.{Continues, IsProgram};
ghost use Rattle.sail_grammar.specs.Words.{Words};
ghost use Rattle.sail_machine.specs.declared.fault.Fault.{Fault};
ghost use Rattle.sail_machine.specs.Frames.{Frames, Mode, nest};
ghost use Rattle.sail_machine.specs.Run.{passed, read};
ghost use Rattle.sail_syntax.specs.Program.{Definition};

/// What words spell within the limits is read, so words spell at most one program.
pub fn spelled_is_read()
    ensures only { (end : ℕ) (ws : Words) (ds : List Definition) → IsProgram ws ds → read end ws ≡ Ok ds }
    ensures one { (ws : Words) (ds es : List Definition) → IsProgram ws ds → IsProgram ws es → ds ≡ es }
{}

/// What is read is spelled within the limits: where the machine reads a program from words, the words, all of them, spell it.
pub fn read_is_spelled()
    ensures spelled { (end : ℕ) (ws : Words) (ds : List Definition) → read end ws ≡ Ok ds → IsProgram ws ds }
{}

/// A fault at a word is the fault of each text that begins with the words up to it, whatever stands behind them, and no continuation
/// of these words is in the grammar.
pub fn stops()
    ensures fault { (end : ℕ) (ws more : Words) (f : Fault) → passed ws ≡ Err f → read end (ws ++ more) ≡ Err f }
    ensures after { (ws : Words) (f : Fault) → passed ws ≡ Err f → ¬ Continues ws }
{}

/// Words that the machine passes go on to a program, as long as a level of nesting is left where they end.
pub fn goes_on()
    ensures before { (ws : Words) (k : Frames) (m : Mode) → passed ws ≡ Ok (k, m) → nest k < 128 → Continues ws }
{}
