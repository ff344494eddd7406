ghost use Rattle.std.specs.Prelude.{◌≡◌, ◌+◌, ◌<◌, ◌++◌, OnOk};
ghost use Rattle.srb_check.specs.Reports.{place_text, error_text, report_line, file_report};

use crate::place::{Place, reach, start};
use itoa::Buffer;
use srb_terms::Diag;
use std::alloc::{AllocError, Global};

/// Adds a path and a place, each with its colon.
fn push_place(report: &mut Vec<u8>, path: &str, place: Place) -> Result<(), AllocError>
    requires line { place.line < usize.MAX }
    requires column { place.column < usize.MAX }
    ensures { OnOk result (report.new.items ≡ report.old.items ++ place_text path.now place) }
{
    let mut digits = Buffer::new();
    report.extend_from_slice(path.as_bytes())?;
    report.extend_from_slice(b":")?;
    report.extend_from_slice(digits.format(place.line + 1).as_bytes())?;
    report.extend_from_slice(b":")?;
    report.extend_from_slice(digits.format(place.column + 1).as_bytes())?;
    report.extend_from_slice(b": ")?;
    Ok(())
}

/// Adds the number and the text of an error, and the line's end.
fn push_error(report: &mut Vec<u8>, number: u16, text: &str) -> Result<(), AllocError>
    ensures { OnOk result (report.new.items ≡ report.old.items ++ error_text number text.now) }
{
    let mut digits = Buffer::new();
    report.extend_from_slice(digits.format(number).as_bytes())?;
    report.extend_from_slice(b" ")?;
    report.extend_from_slice(text.as_bytes())?;
    report.extend_from_slice(b"\n")?;
    Ok(())
}

/// Adds one line of a report.
fn push_line(
    report: &mut Vec<u8>,
    path: &str,
    place: Place,
    number: u16,
    text: &str,
) -> Result<(), AllocError>
    requires line { place.line < usize.MAX }
    requires column { place.column < usize.MAX }
    ensures { OnOk result (report.new.items ≡ report.old.items ++ report_line path.now place number text.now) }
{
    push_place(report, path, place)?;
    push_error(report, number, text)?;
    Ok(())
}

/// Adds the lines of a file's errors to a report, in the order in which they come.
///
/// Where they come by rising places, as the errors of a check do, the file is gone through once.
pub fn push_report(
    report: &mut Vec<u8>,
    path: &str,
    bytes: &[u8],
    errors: &[Diag],
) -> Result<(), AllocError>
    ensures { OnOk result (report.new.items ≡ report.old.items ++ file_report path.now bytes.now errors.now) }
{
    let mut reached = start();
    for error in errors {
        reached = reach(bytes, reached, error.span.start as usize);
        push_line(
            report,
            path,
            reached.place,
            error.number,
            error.text.as_str(),
        )?;
    }
    Ok(())
}
