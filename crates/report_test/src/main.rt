// Report lines of verdicts, document 01's loads and the widest numbers among them, with six decimals and with others,
// compared with `stdout`.

#![tactic(auto)]

use report::{USUAL_DECIMALS, write_report};
use scope::{Accepted, Load, Place, Reason, Refusal, Verdict};
use std::io;

fn show_with(rt: &impl Print, v: Verdict, decimals: i64) -> io::Result<()> {
    let mut buffer = [b'#'; 113];
    let _ = write_report(v, &mut buffer, decimals);
    rt.write_all(&buffer)
}

fn show(rt: &impl Print, v: Verdict) -> io::Result<()> {
    show_with(rt, v, USUAL_DECIMALS)
}

// The same load as lower and as upper.
fn both_with(rt: &impl Print, num: i64, den: i64, decimals: i64) -> io::Result<()> {
    let load = Some(Load { num, den });
    let v = Ok(Accepted {
        open_rows: Some(2),
        lower: load,
        upper: load,
    });
    show_with(rt, v, decimals)
}

fn both(rt: &impl Print, num: i64, den: i64) -> io::Result<()> {
    both_with(rt, num, den, USUAL_DECIMALS)
}

fn refused() -> Verdict {
    Err(Reason::Strength.at(Place::Row(1)))
}

// One byte too few, and some too many.
fn other_buffers(rt: &impl Print) -> io::Result<()> {
    let mut short = [b'#'; 112];
    let _ = write_report(refused(), &mut short, USUAL_DECIMALS);
    rt.write_all(&short)?;
    rt.write_all(b"\n")?;
    let mut long = [b'#'; 120];
    let _ = write_report(refused(), &mut long, USUAL_DECIMALS);
    rt.write_all(&long)?;
    rt.write_all(b"\n")
}

// A number of decimals that no report has: nothing is written.
fn no_line(rt: &impl Print, decimals: i64) -> io::Result<()> {
    let mut buffer = [b'#'; 113];
    let _ = write_report(refused(), &mut buffer, decimals);
    rt.write_all(&buffer)?;
    rt.write_all(b"\n")
}

// From 0 to 7 decimals; 0.333000001 is rounded once, whatever its fourth to seventh decimals are.
fn other_decimals(rt: &impl Print) -> io::Result<()> {
    both_with(rt, -1, 3, 0)?;
    both_with(rt, -1, 3, 3)?;
    both_with(rt, -1, 3, 7)?;
    both_with(rt, 2, 3, 0)?;
    both_with(rt, 2, 3, 3)?;
    both_with(rt, 2, 3, 7)?;
    both_with(rt, 333000001, 1000000000, 3)?;
    both_with(rt, 333000001, 1000000000, 7)?;
    both_with(rt, -1, 2, 0)?;
    both_with(rt, 1, 2, 0)?;
    both_with(rt, i64::MAX, 1, 0)?;
    both_with(rt, i64::MIN, 1, 7)?;
    no_line(rt, -1)?;
    no_line(rt, 8)?;
    no_line(rt, i64::MIN)
}

fn main(rt: HostRuntime) -> io::Result<()> {
    both(&rt, 20, 1)?;
    both(&rt, 1, 3)?;
    both(&rt, -1, 3)?;
    both(&rt, -1, 3000000)?;
    both(&rt, 1, 3000000)?;
    both(&rt, 0, 7)?;
    both(&rt, 5, 0)?;
    both(&rt, 5, -3)?;
    both(&rt, i64::MAX, 1)?;
    both(&rt, i64::MIN, 1)?;
    both(&rt, i64::MIN, i64::MAX)?;
    both(&rt, i64::MAX - 1, i64::MAX)?;
    both(&rt, 1 - i64::MAX, i64::MAX)?;
    show(
        &rt,
        Ok(Accepted {
            open_rows: None,
            lower: None,
            upper: Some(Load { num: 600, den: 30 }),
        }),
    )?;
    show(
        &rt,
        Ok(Accepted {
            open_rows: Some(u64::MAX),
            lower: Some(Load { num: 19, den: 1 }),
            upper: None,
        }),
    )?;
    show(
        &rt,
        Err(Refusal {
            number: u32::MAX,
            place: Place::Column(u32::MAX),
        }),
    )?;
    other_buffers(&rt)?;
    other_decimals(&rt)
}
