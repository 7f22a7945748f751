// What is printed, written to a writer that stands for standard output.
ghost use Rattle.std.specs.Prelude.{[], ◌∷◌, OnOk, IfErr};
ghost use Rattle.std.specs.Io.KnownBytes.{Appends};
ghost use Rattle.columns.specs.Line.{line};
ghost use Rattle.folder.specs.Outcomes.{IsFile};

use crate::failure::Failure;
use std::io::Write;

// Prints the text.
pub fn print<W: Write>(output: &mut W, text: &[u8]) -> Result<(), Failure<'static>>
    ensures written { OnOk result (Appends (W.contents output.old) (W.contents output.new) text.now) }
    ensures failed { IfErr result IsFile }
{
    output.write_all(text).map_err(|error| Failure::File {
        name: b"standard output",
        error,
    })
}

// Prints a number in 6 columns and a line feed.
pub fn print_number<W: Write>(output: &mut W, n: u16) -> Result<(), Failure<'static>>
    ensures written { OnOk result (Appends (W.contents output.old) (W.contents output.new) (line (6 ∷ []) (n ∷ []))) }
    ensures failed { IfErr result IsFile }
{
    let mut line = [b'\n'; 6 + 1];
    columns::write_line(&mut line, &[6], &[u32::from(n)]);
    print(output, &line)
}
