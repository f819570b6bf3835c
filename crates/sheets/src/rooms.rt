// Rooms of a sheet: loss, exchanges, emitter, read and written. Relies on floats. Leaves out what stands before and behind the rooms (sheets).
ghost use Rattle.std.specs.Prelude.{◌≡◌, ◌+◌, ◌≤◌, length};
ghost use Rattle.laws.specs.Lists.{tabs};
ghost use Rattle.laws.specs.Writing.{Put};
ghost use Rattle.meaning.specs.Sheets.{no_room};
ghost use Rattle.sheets.specs.Rooms.{ExchangesTold, OwnTold, EmitterTold, RestTold, RoomTold, RoomsTold, exchange_bytes, emitter_bytes, room_bytes, bytes_of_room};

use crate::floats;
use crate::floats::Asked;
use files::{numbers, refusals};
use meaning::{Emitter, Refusal, Room};

// The exchanges, zeros beyond the first m, and the place behind them.
fn read_exchanges(s: &[u8], at: usize, m: usize) -> Result<([f64; 3], usize), Refusal>
    requires { m ≤ 3 }
    ensures { ExchangesTold s.now at m result }
{
    let mut exchange = [0.0f64; 3];
    let mut p = at;
    for j in 0..m {
        let (g, next) = floats::read_float(s, p, Asked::NotBelow)?;
        exchange[j] = g;
        p = next;
    }
    Ok((exchange, p))
}

// A heater's own values: its coefficient, then its water's temperature.
fn read_heater(s: &[u8], at: usize) -> Result<(Emitter, usize), Refusal>
    ensures { OwnTold 1 s.now at result }
{
    let (coefficient, water, next) = floats::read_two(s, at, Asked::NotBelow)?;
    Ok((Emitter::Heater { coefficient, water }, next))
}

// A steady emitter's rate.
fn read_steady(s: &[u8], at: usize) -> Result<(Emitter, usize), Refusal>
    ensures { OwnTold 2 s.now at result }
{
    let (rate, next) = floats::read_float(s, at, Asked::Any)?;
    Ok((Emitter::Steady { rate }, next))
}

// An emitter: its number, then its own values.
fn read_emitter(s: &[u8], at: usize) -> Result<(Emitter, usize), Refusal>
    ensures { EmitterTold s.now at result }
{
    let (kind, next) = numbers::number(s, at).ok_or(refusals::broken(at))?;
    match kind {
        0 => Ok((Emitter::None, next)),
        1 => read_heater(s, next),
        2 => read_steady(s, next),
        _ => Err(refusals::unfit(at)),
    }
}

// What stands behind a room's loss; the room, and the place behind it.
fn read_rest(s: &[u8], at: usize, n: usize, loss: f64) -> Result<(Room, usize), Refusal>
    requires fact_1 { 1 ≤ n }
    requires fact_2 { n ≤ 4 }
    ensures { RestTold s.now at n loss result }
{
    let (exchange, mid) = read_exchanges(s, at, n - 1)?;
    let (emitter, next) = read_emitter(s, mid)?;
    Ok((
        Room {
            loss,
            exchange,
            emitter,
        },
        next,
    ))
}

fn read_room(s: &[u8], at: usize, n: usize) -> Result<(Room, usize), Refusal>
    requires fact_1 { 1 ≤ n }
    requires fact_2 { n ≤ 4 }
    ensures { RoomTold s.now at n result }
{
    let (loss, next) = floats::read_float(s, at, Asked::NotBelow)?;
    read_rest(s, next, n, loss)
}

fn no_room() -> Room
    ensures { result ≡ no_room }
{
    Room {
        loss: 0.0,
        exchange: [0.0f64; 3],
        emitter: Emitter::None,
    }
}

// The rooms, none beyond n, and the place behind them.
pub fn read_rooms(s: &[u8], at: usize, n: usize) -> Result<([Room; 4], usize), Refusal>
    requires fact_1 { 1 ≤ n }
    requires fact_2 { n ≤ 4 }
    ensures { RoomsTold s.now at n result }
{
    let mut rooms = [no_room(); 4];
    let mut p = at;
    for i in 0..n {
        let (room, next) = read_room(s, p, n)?;
        rooms[i] = room;
        p = next;
    }
    Ok((rooms, p))
}

// The first m exchanges from `at` on, as far as there is room; the place behind them.
fn put_exchanges(buf: &mut [u8], at: usize, exchange: [f64; 3], m: usize) -> usize
    requires fact_1 { m ≤ 3 }
    requires fact_2 { at ≤ length buf.old + 1 }
    ensures { Put buf.old at (tabs (exchange_bytes exchange) m 0) result buf.new }
{
    let mut p = at;
    for g in &exchange[..m] {
        p = floats::put_float(buf, p, *g);
    }
    p
}

// An emitter's number and its own values, likewise.
fn put_emitter(buf: &mut [u8], at: usize, emitter: Emitter) -> usize
    requires { at ≤ length buf.old + 1 }
    ensures { Put buf.old at (emitter_bytes emitter) result buf.new }
{
    match emitter {
        Emitter::None => numbers::put_number(buf, at, 0),
        Emitter::Heater { coefficient, water } => {
            let past_kind = numbers::put_number(buf, at, 1);
            let past_coefficient = floats::put_float(buf, past_kind, coefficient);
            floats::put_float(buf, past_coefficient, water)
        }
        Emitter::Steady { rate } => {
            let past_kind = numbers::put_number(buf, at, 2);
            floats::put_float(buf, past_kind, rate)
        }
    }
}

// A room of n, likewise.
fn put_room(buf: &mut [u8], at: usize, n: usize, room: Room) -> usize
    requires fact_1 { 1 ≤ n }
    requires fact_2 { n ≤ 4 }
    requires fact_3 { at ≤ length buf.old + 1 }
    ensures { Put buf.old at (room_bytes n room) result buf.new }
{
    let past_loss = floats::put_float(buf, at, room.loss);
    let past_exchanges = put_exchanges(buf, past_loss, room.exchange, n - 1);
    put_emitter(buf, past_exchanges, room.emitter)
}

// The first n rooms, likewise.
pub fn put_rooms(buf: &mut [u8], at: usize, n: usize, rooms: [Room; 4]) -> usize
    requires fact_1 { n ≤ 4 }
    requires fact_2 { at ≤ length buf.old + 1 }
    ensures { Put buf.old at (tabs (bytes_of_room n rooms) n 0) result buf.new }
{
    let mut p = at;
    for room in &rooms[..n] {
        p = put_room(buf, p, n, *room);
    }
    p
}
