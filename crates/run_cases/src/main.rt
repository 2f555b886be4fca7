// Cases of the two operations of W6 ("Quantities first, amounts later"), run by the gate: the first on the example of day 1, which has no prices, and on that of
// day 5, over both hours and over the last alone, with refusals of its own; then the second on the differences that the first gave. One line for each.
#![tactic(auto)]

use answer::Refused;
use setting::Setting;
use std::io;

// Both files have two parties.
const PARTIES: usize = 2;

fn refused(rt: &impl Print, refused: Refused) -> io::Result<()> {
    let Refused(refusal, place) = refused;
    let number = refusal.number();
    println!(rt; "refused {number} at {place}")
}

fn print_up_to(rt: &impl Print, line: &[u8], end: usize) -> io::Result<()> {
    if end <= line.len() {
        rt.write_all(&line[0..end])?;
    }
    Ok(())
}

fn print_in(rt: &impl Print, line: &mut [u8], z: i64) -> io::Result<()> {
    if 32 <= line.len() {
        let end = text::put_column(line, 0, z);
        print_up_to(rt, line, end)?;
    }
    Ok(())
}

fn figure(rt: &impl Print, z: i64) -> io::Result<()> {
    let mut line = [0u8; 32];
    print_in(rt, &mut line[0..32], z)
}

fn figures(rt: &impl Print, name: &[u8], all: &[i64]) -> io::Result<()> {
    rt.write_all(name)?;
    for z in all {
        figure(rt, *z)?;
    }
    Ok(())
}

fn figures_wh(rt: &impl Print, name: &[u8], all: &[u32]) -> io::Result<()> {
    rt.write_all(name)?;
    for wh in all {
        figure(rt, *wh as i64)?;
    }
    Ok(())
}

// What the first operation gave.
fn quantities(
    rt: &impl Print,
    distributed_wh: &[i64],
    periodised_wh: &[u32],
    differences_wh: &[i64],
    losses_wh: &[i64],
) -> io::Result<()> {
    figures(rt, b"distributed", distributed_wh)?;
    figures_wh(rt, b" periodised", periodised_wh)?;
    figures(rt, b" difference", differences_wh)?;
    figures(rt, b" loss", losses_wh)?;
    println!(rt)
}

// The first operation, into these outputs.
fn run_lent(
    rt: &impl Print,
    file: &[u8],
    start: usize,
    hours: usize,
    distributed_wh: &mut [i64],
    periodised_wh: &mut [u32],
    differences_wh: &mut [i64],
    losses_wh: &mut [i64],
) -> io::Result<()> {
    let answered = month_run::hours(
        file,
        Setting::Final,
        start,
        hours,
        distributed_wh,
        periodised_wh,
        differences_wh,
        losses_wh,
    );
    match answered {
        Err(x) => refused(rt, x),
        Ok(()) => quantities(rt, distributed_wh, periodised_wh, differences_wh, losses_wh),
    }
}

// A run of so many hours, into outputs that have a place for each figure of two.
fn run_case(rt: &impl Print, file: &[u8], start: usize, hours: usize) -> io::Result<()> {
    let mut distributed_wh = [0i64; 4];
    let mut periodised_wh = [0u32; 4];
    let mut differences_wh = [0i64; 4];
    let mut losses_wh = [0i64; 2];
    run_lent(
        rt,
        file,
        start,
        hours,
        &mut distributed_wh[0..4],
        &mut periodised_wh[0..4],
        &mut differences_wh[0..4],
        &mut losses_wh[0..2],
    )
}

// One hour, into outputs of its own length.
fn hour_case(rt: &impl Print, file: &[u8], start: usize) -> io::Result<()> {
    let mut distributed_wh = [0i64; 2];
    let mut periodised_wh = [0u32; 2];
    let mut differences_wh = [0i64; 2];
    let mut losses_wh = [0i64; 1];
    run_lent(
        rt,
        file,
        start,
        1,
        &mut distributed_wh[0..2],
        &mut periodised_wh[0..2],
        &mut differences_wh[0..2],
        &mut losses_wh[0..1],
    )
}

// The second operation, into this output.
fn amounts_lent(
    rt: &impl Print,
    differences_wh: &[i64],
    prices_ore: &[i64],
    amounts_millionths: &mut [i64],
) -> io::Result<()> {
    let answered = amounts_service::amounts(
        differences_wh,
        PARTIES,
        prices_ore,
        amounts_millionths,
    );
    match answered {
        Err(x) => refused(rt, x),
        Ok(()) => {
            figures(rt, b"amount", amounts_millionths)?;
            println!(rt)
        }
    }
}

// Of two hours.
fn amounts_case(rt: &impl Print, differences_wh: &[i64], prices_ore: &[i64]) -> io::Result<()> {
    let mut amounts_millionths = [0i64; 4];
    amounts_lent(
        rt,
        differences_wh,
        prices_ore,
        &mut amounts_millionths[0..4],
    )
}

// The second after the first: day 1's differences, and the prices that came on day 5.
fn priced_later(
    rt: &impl Print,
    file: &[u8],
    distributed_wh: &mut [i64],
    periodised_wh: &mut [u32],
    differences_wh: &mut [i64],
    losses_wh: &mut [i64],
) -> io::Result<()> {
    let answered = month_run::hours(
        file,
        Setting::Final,
        0,
        2,
        distributed_wh,
        periodised_wh,
        differences_wh,
        losses_wh,
    );
    match answered {
        Err(x) => refused(rt, x),
        Ok(()) => amounts_case(rt, differences_wh, &[500000i64, 1200000]),
    }
}

fn priced_case(rt: &impl Print, file: &[u8]) -> io::Result<()> {
    let mut distributed_wh = [0i64; 4];
    let mut periodised_wh = [0u32; 4];
    let mut differences_wh = [0i64; 4];
    let mut losses_wh = [0i64; 2];
    priced_later(
        rt,
        file,
        &mut distributed_wh[0..4],
        &mut periodised_wh[0..4],
        &mut differences_wh[0..4],
        &mut losses_wh[0..2],
    )
}

// The examples of day 1 and of day 5, examples/volumes.month and examples/priced.month; a run that passes the month's end, outputs for another run, a file without
// its end.
fn quantities_first(rt: &impl Print) -> io::Result<()> {
    let volumes: &[u8] =
        b"\x01\x00\x09\x07\xe1\x02\x00\x02\x02\x01\x02\x30\x30\x30\x30\x30\x30\x30\x30\x30\x30\x30\x31\x37\x00\x00\x00\x00\x00\x00\x00\x03\x02\x30\x30\x30\x30\x30\x30\x30\x30\x30\x30\x30\x32\x34\x00\x00\x00\x00\x00\x00\x00\x01\x03\x00\x00\x01\x00\x00\x00\x00\x00\x00\x00\x08\x00\x00\x00\x00\x00\x00\x00\x00\x00\x00\x00\x00\x00\x00\x00\x00\x00\x00\x00\x00\x00\x00\x00\x00\x03\x00\x01\x01\x00\x00\x00\x00\x00\x00\x00\x04\x00\x00\x00\x00\x00\x00\x00\x00\x00\x00\x00\x00\x00\x00\x00\x00\x00\x00\x00\x00\x00\x00\x00\x00\x06\x00\x00\x01\x00\x00\x00\x00\x00\x00\x00\x09\x00\x00\x00\x00\x00\x00\x00\x00\x00\x00\x00\x00\x00\x00\x00\x00\x00\x00\x00\x00\x00\x00\x00\x00\x06\x00\x01\x01\x00\x00\x00\x00\x00\x00\x00\x06\x00\x00\x00\x00\x00\x00\x00\x00\x00\x00\x00\x00\x00\x00\x00\x00\x00\x00\x00\x00\x00\x00\x00\x00\x04\x00\x00\x00\x00\x02\x00\x00\x00\x08\x04\x01\x00\x01\x00\x02\x00\x00\x00\x01\x07\x00\x00\x00\x09";
    let priced: &[u8] =
        b"\x01\x00\x09\x07\xe1\x02\x00\x02\x02\x01\x02\x30\x30\x30\x30\x30\x30\x30\x30\x30\x30\x30\x31\x37\x00\x00\x00\x00\x00\x00\x00\x03\x02\x30\x30\x30\x30\x30\x30\x30\x30\x30\x30\x30\x32\x34\x00\x00\x00\x00\x00\x00\x00\x01\x03\x00\x00\x01\x00\x00\x00\x00\x00\x00\x00\x08\x00\x00\x00\x00\x00\x00\x00\x00\x00\x00\x00\x00\x00\x00\x00\x00\x00\x00\x00\x00\x00\x00\x00\x00\x03\x00\x01\x01\x00\x00\x00\x00\x00\x00\x00\x04\x00\x00\x00\x00\x00\x00\x00\x00\x00\x00\x00\x00\x00\x00\x00\x00\x00\x00\x00\x00\x00\x00\x00\x00\x06\x00\x00\x01\x00\x00\x00\x00\x00\x00\x00\x09\x00\x00\x00\x00\x00\x00\x00\x00\x00\x00\x00\x00\x00\x00\x00\x00\x00\x00\x00\x00\x00\x00\x00\x00\x06\x00\x01\x01\x00\x00\x00\x00\x00\x00\x00\x06\x00\x00\x00\x00\x00\x00\x00\x00\x00\x00\x00\x00\x00\x00\x00\x00\x00\x00\x00\x00\x00\x00\x00\x00\x05\x00\x00\x00\x07\xa1\x20\x05\x00\x01\x00\x12\x4f\x80\x04\x00\x00\x00\x00\x02\x00\x00\x00\x08\x04\x01\x00\x01\x00\x02\x00\x00\x00\x01\x07\x00\x00\x00\x0b";
    run_case(rt, volumes, 0, 2)?;
    run_case(rt, priced, 0, 2)?;
    hour_case(rt, volumes, 1)?;
    run_case(rt, volumes, 1, 2)?;
    run_case(rt, volumes, 0, 1)?;
    hour_case(rt, &volumes[0..218], 0)?;
    priced_case(rt, volumes)
}

// The refusals of the second: 16, 4 of unequal lengths, of a price and of an hour, and 19 after it.
fn amounts_later(rt: &impl Print) -> io::Result<()> {
    amounts_case(rt, &[1i64, -1], &[500000i64])?;
    amounts_case(rt, &[1i64, -1, 2, -2], &[500000i64])?;
    amounts_case(rt, &[1i64, -1, 2, -1], &[500000i64, 5000001])?;
    amounts_case(
        rt,
        &[2000000002i64, -2000000002, 2, -1],
        &[500000i64, 5000000],
    )?;
    amounts_case(
        rt,
        &[2000000001i64, -2000000001, 2000000002, -2000000002],
        &[500000i64, 5000000],
    )
}

fn main(rt: HostRuntime) -> io::Result<()> {
    quantities_first(&rt)?;
    amounts_later(&rt)
}
