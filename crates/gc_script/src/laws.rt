//! Laws of the script language. Each is what a function that does nothing ensures.

ghost use Rattle.std.specs.Prelude.{◌≡◌};
ghost use Rattle.gc_script.specs.Laws.{AcceptedBytesAreWrittenBack, IsReadBack, ScriptsAreReadBack};
ghost use Rattle.gc_script.specs.Written.{written};

use crate::script::Script;

/// What a script is written as, of any number of bytes, is read as that script.
pub fn a_written_text_gives_its_script(s: &Script)
    ensures { IsReadBack s.now }
{
    let _preamble = s.preamble();
}

/// Two scripts that are written as one text are one script.
pub fn texts_of_two_scripts_differ(one: &Script, other: &Script)
    ensures { written one.now ≡ written other.now → one.now ≡ other.now }
{
    let _preamble = one.preamble();
    let _other = other.preamble();
}

/// Where some text is read as a script, what the script is written as is too: so a Script can be each that is read
/// from a text.
pub fn each_script_is_read_back()
    ensures { ScriptsAreReadBack }
{}

/// The script of a text is written as that text, or as that text and a last newline.
pub fn accepted_bytes_are_written_back()
    ensures { AcceptedBytesAreWrittenBack }
{}
