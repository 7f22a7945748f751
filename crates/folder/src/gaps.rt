// What is due for the gaps between worksites, printed.
ghost use Rattle.std.specs.Prelude.{◌≡◌, OnOk, IfErr};
ghost use Rattle.std.specs.Io.KnownBytes.{Appends};
ghost use Rattle.std.specs.Process.{exit_status};
ghost use Rattle.folder.specs.Outcomes.{IsFile, GapsAfter, GapsPrinted};
ghost use Rattle.worksites.specs.ListText.{gaps_text};

use crate::failure::{Failure, end_run};
use crate::input::read_file;
use crate::output::{print, print_number};
use std::io::Write;
use std::process::ExitCode;
use std::rt::Files;
use worksites::{TEXT_SIZE, WorksiteList, read_list, write_gaps};

// Prints a line for each gap between the worksites of a list; the answer, where it is refused. 31 lines of 17 bytes are
// room enough.
fn print_lines<W: Write>(list: &WorksiteList, output: &mut W) -> Result<(), Failure<'static>>
    ensures written { OnOk result (Appends (W.contents output.old) (W.contents output.new)
        (gaps_text list.now.kind list.now.stated list.now.from.items list.now.to.items)) }
    ensures failed { IfErr result IsFile }
{
    let mut lines = [0; 31 * 17];
    match write_gaps(list.kind, list.stated, &list.from, &list.to, &mut lines) {
        Ok(count) => print(output, &lines[..17 * count]),
        Err(refusal) => print_number(output, u16::from(refusal)),
    }
}

// Prints what is due for the worksites of a text. The file of the text goes by that name.
fn print_text<'a, W: Write>(text: &[u8], name: &'a [u8], output: &mut W) -> Result<(), Failure<'a>>
    ensures { GapsAfter text.now (W.contents output.old) (W.contents output.new) result }
{
    match read_list(text) {
        Ok(list) => print_lines(&list, output),
        Err(line) => Err(Failure::MalformedWorksites {
            name,
            // Kept: a cast, which loses nothing: a count of lines has no `From` into 64 bits.
            line: line as u64,
        }),
    }
}

// Prints what is due for the worksites of a file.
fn print_file<'a, R: Files, W: Write>(
    rt: &R,
    name: &'a [u8],
    output: &mut W,
) -> Result<(), Failure<'a>>
    ensures { OnOk result (GapsPrinted (W.contents output.old) (W.contents output.new)) }
{
    let mut text = [0; TEXT_SIZE];
    let filled = read_file(rt, name, &mut text);
    filled.check(name)?;
    print_text(&text[..filled.bytes], name, output)
}

// Prints what is due for the worksites of the file of that name, and gives the exit status.
pub fn print_gaps<R: Files, W: Write, E: Write>(
    rt: &R,
    name: &[u8],
    output: &mut W,
    errors: &mut E,
) -> ExitCode
    ensures { exit_status result ≡ 0 → GapsPrinted (W.contents output.old) (W.contents output.new) }
{
    end_run(print_file(rt, name, output), errors)
}
