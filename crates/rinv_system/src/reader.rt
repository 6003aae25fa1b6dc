//! Texts that are read line by line: one loop for systems, and for all texts that begin as one.

ghost use Rattle.std.specs.Prelude.{◌≡◌, ◌<◌, ◌-◌, ◌^◌, None, length, IfOk, IfErr};
ghost use Rattle.rinv_system.specs.Lines.{first_bad_line, contents_of};
ghost use Rattle.rinv_system.specs.LineTexts.{AreTaken, IsText, IsRefusedText};
ghost use Rattle.rinv_system.specs.Stops.{OnRefusal, stop_at};

use crate::lines::{content, first_bad_line, first_line};
use crate::refused::{Code, LineStop, Refused, SystemStop};
use std::alloc::Global;

/// What the lines of a text told so far.
pub trait LineReader: Drop {
    ghost use Rattle.std.specs.Prelude.{◌≡◌, ◌<◌, ◌-◌, ◌^◌, ℕ, List, Bool, IsTrue, length, IfErr, OnOk};
    ghost use Rattle.std.specs.List.{list_all};
    ghost use Rattle.rinv_system.specs.declared.refused.Code.{Code};
    ghost use Rattle.rinv_system.specs.Lines.{is_allowed};
    ghost use Rattle.rinv_system.specs.Stops.{OnCode};

    // What holds after lines that were taken.
    ghost is_reached: { Self → Type 0 };

    // How a line is refused, and what is told with a line more.
    ghost refuses: { Self → List ℕ → Code → Type 0 };

    ghost takes: { Self → List ℕ → Self → Type 0 };

    // Whether all lines that are needed have come.
    ghost is_whole: { Self → Bool };

    /// Adds what stands on a line to what the lines before it told.
    fn add_line(&mut self, alloc: Global, line: &[u8]) -> Result<(), LineStop>
        requires reached { is_reached self.old }
        requires short { length line.now < 2 ^ 32 - 1 }
        requires allowed { IsTrue (list_all is_allowed line.now) }
        ensures ok { OnOk result (takes self.old line.now self.new) }
        ensures reached { OnOk result (is_reached self.new) }
        ensures fault { IfErr result (OnCode (refuses self.old line.now)) };

    /// Whether all lines that are needed have come.
    fn has_all(&self) -> bool
        ensures { result ≡ is_whole self.now };
}

// The fault of a line as that of the text.
fn stop_at(line: u32, stop: LineStop) -> SystemStop
    ensures { result ≡ stop_at line stop }
{
    match stop {
        LineStop::Fault(code) => SystemStop::Refused(Refused { line, code }),
        LineStop::NoMemory => SystemStop::NoMemory,
    }
}

// What all lines told, and how many there are.
fn read_lines<R: LineReader>(alloc: Global, blank: R, text: &[u8]) -> Result<(R, u32), SystemStop>
    requires short { length text.now < 2 ^ 32 - 1 }
    requires good { first_bad_line text.now ≡ None }
    requires reached { R.is_reached blank }
    ensures taken { IfOk result (λ r. AreTaken R.takes blank (contents_of text.now) r.0) }
    ensures count { IfOk result (λ r. (r.1 ≡ length (contents_of text.now)) × (r.1 < 2 ^ 32 - 1)) }
    ensures fault { IfErr result (OnRefusal (IsRefusedText R.refuses R.takes blank R.is_whole text.now)) }
{
    let mut rest = text;
    let mut reader = blank;
    let mut count = 0;
    'lines: while !rest.is_empty() {
        let (line, following) = first_line(rest);
        match reader.add_line(alloc, content(line)) {
            Ok(()) => {}
            Err(stop) => return Err(stop_at(count + 1, stop)),
        }
        rest = following;
        count += 1;
    }
    Ok((reader, count))
}

/// What the lines of a text of fewer than 2^32 - 1 bytes tell, from a reader that was told nothing; or the first line that is refused, and why.
pub fn read_text<R: LineReader>(alloc: Global, blank: R, bytes: &[u8]) -> Result<R, SystemStop>
    requires short { length bytes.now < 2 ^ 32 - 1 }
    requires reached { R.is_reached blank }
    ensures ok { IfOk result (IsText R.takes blank R.is_whole bytes.now) }
    ensures fault { IfErr result (OnRefusal (IsRefusedText R.refuses R.takes blank R.is_whole bytes.now)) }
{
    if let Some(line) = first_bad_line(bytes) {
        let code = Code::NotText;
        return Err(SystemStop::Refused(Refused { line, code }));
    }
    let (reader, count) = read_lines(alloc, blank, bytes)?;
    if !reader.has_all() {
        let line = count + 1;
        let code = Code::Missing;
        return Err(SystemStop::Refused(Refused { line, code }));
    }
    Ok(reader)
}
