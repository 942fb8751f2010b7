// All lines of a laboratory's file tested: which are kept, and whether a strict text can be made of them. A line is held until the next
// one that is kept is known, or the end, since only then is it known whether its series goes on.
#![tactic(auto)]

ghost use Rattle.std.specs.Prelude.{◌&&◌, not, ◌≡◌, ◌+◌, ◌-◌, ◌≤◌};
ghost use Rattle.std.proofs.Math.Option.{none};
ghost use Rattle.std.proofs.Math.Seq.{slice};
ghost use Rattle.base_outcome.specs.Outcome.{◌then◌};
ghost use Rattle.base_outcome.specs.Machine.{reply, passed};
ghost use Rattle.spec_tucson.specs.Line.{name_columns, lines_of};
ghost use Rattle.spec_tucson.specs.KeptLines.{is_data, kept_lines};
ghost use Rattle.spec_tucson.specs.CleanCall.{checked_lines};
ghost use Rattle.tucson_lines.specs.Machine.{LineEnd};
ghost use Rattle.tucson_check.specs.Holding.{unheld, NamesAsk, same_name_bytes, FollowAsks, FollowTold, TakeAsks, TakeTold, FinishAsks};
ghost use Rattle.tucson_check.specs.Holding.{FinishTold};

use base_outcome::{Refusal, codes, limits};
use tucson_judge::{Judged, Reader};
use tucson_shown::StrictLine;

// The line that is held: whether there is one, how many bytes are shown of it and how many it has, its number, whether it follows its
// series; and what was found in the lines before it.
#[derive(Clone, Copy)]
pub struct Held {
    pub some: bool,
    pub shown: usize,
    pub size: usize,
    pub number: usize,
    pub follows: bool,
    pub judged: Judged,
}

// Nothing is held, and nothing was found.
fn nothing() -> Held
    ensures { result ≡ unheld }
{
    let reader = Reader {
        begun: false,
        next: 0,
        small: true,
    };
    let judged = Judged {
        year: 0,
        fault: None,
        seen: 0,
        reader: Ok(reader),
    };
    Held {
        some: false,
        shown: 0,
        size: 0,
        number: 0,
        follows: false,
        judged: judged,
    }
}

// Whether the line with this number, from the one index up to the other, is a line of data.
pub fn is_data(body: &[u8], header: usize, number: usize, from: usize, end: usize) -> bool
    requires { LineEnd body.now from end }
    ensures { result ≡ is_data header number (slice from (end + 1) body.now) }
{
    if tucson_shown::is_blank_line(body, from, end) {
        return false;
    }
    header < number
}

// How many of the bytes that are shown stand in the columns of the name.
fn name_width(shown: usize, size: usize) -> usize
    requires { name_columns ≤ size }
    ensures { result ≡ shown + name_columns - size }
{
    let behind = size - limits::NAME_COLUMNS;
    if shown < behind {
        return 0;
    }
    shown - behind
}

// Whether the two lines' names, which are the same, are not the same bytes in the file.
fn is_misnamed(shown: &[u8], line: &[u8], old_shown: &[u8], old: &[u8]) -> bool
    requires { NamesAsk line.now old.now }
    ensures { result ≡ not (same_name_bytes old_shown.now old.now shown.now line.now) }
{
    let before = name_width(old_shown.len(), old.len());
    let width = name_width(shown.len(), line.len());
    !tucson_names::same_text(&old_shown[..before], &shown[..width])
}

// Takes up a strict line, unless its name is not the bytes of the name before it: the one that is held is judged, and this one is held.
fn follow(
    h: Held,
    old_shown: &[u8],
    old: &[u8],
    shown: &[u8],
    line: &[u8],
    number: usize,
    unit: u32,
) -> Option<Held>
    requires { FollowAsks h old.now line.now number }
    ensures { FollowTold unit h old_shown.now old.now shown.now line.now number result }
{
    let judged = h.judged;
    if !h.some {
        return Some(Held {
            some: true,
            shown: shown.len(),
            size: line.len(),
            number: number,
            follows: false,
            judged: judged,
        });
    }
    let goes = tucson_names::same_text(&old[..limits::NAME_COLUMNS], &line[..limits::NAME_COLUMNS]);
    if goes {
        if is_misnamed(shown, line, old_shown, old) {
            return None;
        }
    }
    let next = tucson_judge::judge(judged, old, h.number, h.follows, goes, unit);
    Some(Held {
        some: true,
        shown: shown.len(),
        size: line.len(),
        number: number,
        follows: goes,
        judged: next,
    })
}

// Takes up a line of data by what is told of it: it is held, or refused by its code.
fn take_up(
    strict: Result<StrictLine, u8>,
    held: Held,
    old_shown: [u8; tucson_columns::CELLS],
    old: [u8; tucson_columns::CELLS],
    shown: [u8; tucson_columns::CELLS],
    line: [u8; tucson_columns::CELLS],
    number: usize,
    unit: u32,
) -> Result<Held, u8>
    requires { TakeAsks strict held old_shown old shown line number }
    ensures { TakeTold unit strict held old_shown old number shown line result }
{
    let l = strict?;
    follow(
        held,
        &old_shown[..held.shown],
        &old[..held.size],
        &shown[..l.shown],
        &line[..l.size],
        number,
        unit,
    )
    .ok_or(codes::FILE_BYTES)
}

// The verdict where no line is to come.
fn finish(h: Held, old: &[u8], unit: u32) -> Result<(), Refusal>
    requires { FinishAsks h old.now }
    ensures { FinishTold unit h old.now result }
{
    let judged = h.judged;
    if h.some {
        return tucson_judge::conclude(tucson_judge::judge(
            judged, old, h.number, h.follows, false, unit,
        ));
    }
    tucson_judge::conclude(judged)
}

// Whether a strict text can be made of the lines below a header that ends with the line named, or the first refusal.
pub fn check(body: &[u8], header: usize, unit: u32) -> Result<(), Refusal>
    ensures { reply result ≡ passed (kept_lines header 1 none (lines_of body.now) then checked_lines unit) }
{
    let mut old_shown = [0; tucson_columns::CELLS];
    let mut old = [0; tucson_columns::CELLS];
    let mut held = nothing();
    let mut from = 0;
    let mut number = 1;
    // A `while`: each turn goes on behind the end of a line.
    while from < body.len() {
        let end = base_text::fields::find(body, from, body.len(), b'\n');
        if !is_data(body, header, number, from, end) {
            from = end + 1;
            number += 1;
            continue;
        }
        let mut shown = [0; tucson_columns::CELLS];
        let mut line = [0; tucson_columns::CELLS];
        let strict = tucson_shown::strict_line(body, from, end, &mut shown, &mut line);
        let taken = take_up(strict, held, old_shown, old, shown, line, number, unit);
        match taken {
            Err(code) => {
                return Err(Refusal {
                    code,
                    place: base_outcome::place(number),
                });
            }
            Ok(h) => held = h,
        }
        old_shown = shown;
        old = line;
        from = end + 1;
        number += 1;
    }
    let size = held.size;
    finish(held, &old[..size], unit)
}
