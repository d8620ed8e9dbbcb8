// The lines of a pair: the fields of each block in their order, one space apart.
// Promise: both lines are the defined ones, and they fit whatever their numbers are.
ghost use Rattle.std.specs.Prelude.{◌≡◌, ◌+◌, ◌≤◌, [], ◌∷◌, ◌++◌, length};
ghost use Rattle.guards.specs.Mended.{numbers_of};
ghost use Rattle.reception.specs.Reports.{block_report_told, report_told};
ghost use Rattle.arrayvec.specs.ArrayString.{array_string_len};
ghost use Rattle.linelog.specs.Lines.{sound_samples, range_fields, block_line, lines};
ghost use Rattle.linelog.specs.Written.{spaced};

use arrayvec::ArrayString;
use guards::ranges::Ranges;
use itoa::{Buffer, Integer};
use reception::{BlockReport, Report};

/// Octets of a log.
pub const LOG_OCTETS: usize = 96;

/// Which pair of which circuit.
#[derive(Clone, Copy, PartialEq, Eq, Debug)]
pub struct PairNumber {
    pub circuit: u32,
    pub pair: u32,
}

// Room for both lines. They are pushed, not printed by `write!`: tried, and no contract says that printing answers Ok.
type Text = ArrayString<LOG_OCTETS>;

// How many samples of a block are sound.
fn sound_samples(block: &BlockReport) -> u8
    ensures { result ≡ sound_samples block.now.marks }
{
    // A loop, since `filter(..).count()` of the marks took nearly half of a log's instructions.
    let mut sound = 0;
    for mark in &block.marks {
        if *mark {
            sound += 1;
        }
    }
    sound
}

// A number, and a space behind it.
fn push_number<N: Integer>(text: &mut Text, number: N)
    requires { array_string_len text.old + N.MAX_STR_LEN + 1 ≤ 96 }
    ensures written { text.new.bytes ≡ text.old.bytes ++ (N.text number ++ 32 ∷ []) }
    ensures short { array_string_len text.new ≤ array_string_len text.old + N.MAX_STR_LEN + 1 }
{
    text.push_str(Buffer::new().format(number));
    text.push(' ');
}

// The basic and the additional range, a dash for each where there are none.
fn push_ranges(text: &mut Text, ranges: &Option<Ranges>)
    requires { array_string_len text.old + 8 ≤ 96 }
    ensures written { text.new.bytes ≡ text.old.bytes ++ spaced (range_fields (numbers_of ranges.now)) }
    ensures short { array_string_len text.new ≤ array_string_len text.old + 8 }
{
    match ranges {
        Some(ranges) => {
            push_number(text, ranges.basic());
            push_number(text, ranges.additional());
        }
        None => text.push_str("- - "),
    }
}

// The line of a block, the first or the second: half of a log's octets hold it.
fn push_line(text: &mut Text, number: PairNumber, block_number: u8, block: &BlockReport)
    requires { array_string_len text.old + 48 ≤ 96 }
    ensures written { text.new.bytes ≡ text.old.bytes ++ block_line number.circuit number.pair block_number (block_report_told block.now) }
    ensures short { array_string_len text.new ≤ array_string_len text.old + 48 }
{
    push_number(text, number.circuit);
    push_number(text, number.pair);
    push_number(text, block_number);
    push_ranges(text, &block.ranges);
    text.push_str(block.verdict.word());
    text.push(' ');
    push_number(text, block.verdict.number());
    text.push_str(Buffer::new().format(sound_samples(block)));
    text.push('\n');
}

// Both lines of a pair.
#[tactic(auto, unfolding(crate::specs::Lines::lines))]
pub(crate) fn lines_of(report: &Report, number: PairNumber) -> Text
    ensures written { result.bytes ≡ lines number.circuit number.pair (report_told report.now) }
    ensures fits { length (lines number.circuit number.pair (report_told report.now)) ≤ 96 }
{
    let mut text = ArrayString::new();
    push_line(&mut text, number, 1, &report.first);
    push_line(&mut text, number, 2, &report.second);
    text
}
