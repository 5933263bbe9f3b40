//! Laws on how a script is cut into its lines, and a line into its words. Each function does nothing: its contract
//! is the law.

ghost use Rattle.std.specs.Prelude.{◌≡◌, ℕ, List, Some, ◌++◌, map};
ghost use Rattle.std.specs.Option.{option_to_list};
ghost use Rattle.tile_lines.specs.Cutting.{cut_of, nothing_held, after_pushes, rest_of, cuts};
ghost use Rattle.tile_lines.specs.Lines.{lines_of, SpellsLines};
ghost use Rattle.tile_lines.specs.Spelling.{SpellsWords};
ghost use Rattle.tile_lines.specs.Words.{Word, words_of};
ghost use Rattle.tile_lines.specs.declared.TheConstants.{LINE_LIMIT};

/// A line has at most 65,536 bytes.
pub fn limits()
    ensures { LINE_LIMIT ≡ 65536 }
{}

/// The lines of a script make it up (`found`), and no others do (`only`).
pub fn lines_make_up_the_script()
    ensures found { (script : List ℕ) → SpellsLines script (lines_of script) }
    ensures only { (script : List ℕ) (lines : List (List ℕ)) → SpellsLines script lines → lines_of script ≡ lines }
{}

/// A cutter that takes a whole script returns its lines, the last one as the rest where no line
/// feed ends it, and no others.
pub fn cuts_are_lines()
    ensures { (script : List ℕ) → map cut_of (lines_of script) ≡ cuts nothing_held script ++ option_to_list (rest_of (after_pushes nothing_held script)) }
{}

/// A line that is read as words is spelled as those words (`found`), and a line that is spelled as
/// some words is read as those (`only`). So no line has two lists of words.
pub fn words_are_spelled()
    ensures found { (line : List ℕ) (words : List Word) → words_of line ≡ Some words → SpellsWords line words }
    ensures only { (line : List ℕ) (words : List Word) → SpellsWords line words → words_of line ≡ Some words }
{}
