ghost use Rattle.std.specs.Prelude.{◌≡◌, IfOk, Some, string_bytes};
ghost use Rattle.report.specs.Text.{station_text, record_text, cut_text, rows_text, ending, closing_text, way_text};
ghost use Rattle.report.specs.Answered.{recovery_text, effect_text, report_text, answered};

use fields::Failure;
use question::reading::{Opening, ask};
use rates::rate_rule::RateRule;
use rates::regime::Regime;
use record::Record;
use silence::expiry::{Expiry, Recovery, recover};
use std::alloc::{AllocError, Global};
use std::fmt;

// A notice of this value does nothing.
const IGNORED: u8 = 0;

// A station address, as 02:00:00:00:00:01.
#[derive(Clone, Copy)]
struct Station([u8; 6]);

impl fmt::Display for Station {
    ghost output = { λ x. Some (station_text x.0) };

    #[tactic(auto, using(crate::proofs::Digits::two_digits))]
    fn fmt<W: fmt::Write>(&self, f: &mut fmt::Formatter<W>) -> fmt::Result {
        let [a, b, c, d, e, g] = self.0;
        write!(f, "{a:02x}:{b:02x}:{c:02x}:{d:02x}:{e:02x}:{g:02x}")
    }
}

// What the record says.
fn record_text(heap: Global, said: &Record) -> Result<String, AllocError>
    ensures answer { IfOk result (λ t. string_bytes t ≡ record_text said.now) }
{
    format!(in heap;
        "record: switch {}, flow {}, value {}\n",
        Station(said.station),
        said.flow,
        said.value
    )
}

fn rows_text(heap: Global, rows: &[Expiry]) -> Result<String, AllocError>
    ensures answer { IfOk result (λ t. string_bytes t ≡ rows_text rows.now) }
{
    let mut text = String::new(heap);
    for row in rows {
        writeln!(
            text,
            "{} {} {} {} {}",
            row.number, row.time, row.stage, row.rates.current, row.rates.target
        )?;
    }
    Ok(text)
}

fn ending(line_rate: u32, current: u32) -> &'static str
    ensures answer { result.now ≡ ending line_rate current }
{
    if current == line_rate {
        "back"
    } else {
        "stopped at the bound, not back"
    }
}

// What it does to the current rate.
fn cut_text(heap: Global, before: u32, after: u32) -> Result<String, AllocError>
    ensures answer { IfOk result (λ t. string_bytes t ≡ cut_text before after) }
{
    format!(in heap; "current rate: {before} kbit/s before the notice, {after} kbit/s after it\n")
}

fn closing_text(heap: Global, line_rate: u32, end: Expiry) -> Result<String, AllocError>
    ensures answer { IfOk result (λ t. string_bytes t ≡ closing_text line_rate end) }
{
    format!(in heap;
        "{} at the line rate after {} expiries, {} us after the notice\n",
        ending(line_rate, end.rates.current),
        end.number,
        end.time
    )
}

// The way of a flow that a notice cut.
fn way_text(heap: Global, line_rate: u32, way: &Recovery) -> Result<String, AllocError>
    ensures answer { IfOk result (λ t. string_bytes t ≡ way_text line_rate way.now) }
{
    let cut = cut_text(heap, line_rate, way.start.rates.current)?;
    let rows = rows_text(heap, way.rows.as_slice())?;
    let closing = closing_text(heap, line_rate, way.end)?;
    format!(in heap; "{cut}expiry time_us stage current_kbit/s target_kbit/s\n{rows}{closing}")
}

// The way back after a notice of `value`.
fn recovery_text<R: RateRule>(
    heap: Global,
    regime: &Regime<R>,
    value: u8,
) -> Result<String, AllocError>
    ensures answer { IfOk result (λ t. string_bytes t ≡ recovery_text (R.RateRule.meaning regime.now.rule) regime.now.settings.figures value) }
{
    let way = recover(heap, regime, value)?;
    way_text(heap, regime.settings.line_rate(), &way)
}

// What a notice of `value` does: nothing where it is 0.
#[tactic(auto, unfolding(crate::specs::Answered::effect_text))]
fn effect_text<R: RateRule>(
    heap: Global,
    regime: &Regime<R>,
    value: u8,
) -> Result<String, AllocError>
    ensures answer { IfOk result (λ t. string_bytes t ≡ effect_text (R.RateRule.meaning regime.now.rule) regime.now.settings.figures value) }
{
    if value == IGNORED {
        return String::from_str(heap, "value 0 is ignored: the flow stays at its rate\n");
    }
    recovery_text(heap, regime, value)
}

// What the record does to a flow at the line rate that then stays silent.
pub fn report<R: RateRule>(
    heap: Global,
    regime: &Regime<R>,
    said: &Record,
) -> Result<String, AllocError>
    ensures answer { IfOk result (λ t. string_bytes t ≡ report_text (R.RateRule.meaning regime.now.rule) regime.now.settings.figures said.now) }
{
    let mut text = record_text(heap, said)?;
    let effect = effect_text(heap, regime, said.value)?;
    text.push_str(effect.as_str())?;
    Ok(text)
}

// The whole answer to a question of two lines: the report, or the refusal.
pub fn answer(heap: Global, input: &[u8]) -> Result<String, AllocError>
    ensures answer { IfOk result (λ t. string_bytes t ≡ answered input.now) }
{
    match ask(heap, input) {
        Ok(question) => {
            let Opening { rule, settings } = question.opening;
            report(heap, &Regime::chosen(rule, settings), &question.said)
        }
        Err(Failure::Refused(refusal)) => format!(in heap; "{refusal}\n"),
        Err(Failure::Memory) => Err(AllocError),
    }
}
