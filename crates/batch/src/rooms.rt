// Rooms as numbers: the emitter's number, and six floats: loss, three exchanges and the emitter's own values, zeros beyond. Relies on meaning's Room.
// Leaves out which of them count.
ghost use Rattle.std.specs.Prelude.{◌≡◌};
ghost use Rattle.meaning.specs.Sheets.{no_room};
ghost use Rattle.batch.specs.Values.{kind_of, floats_of, kinds_of, all_floats_of, emitter_from, room_from, rooms_from};

use meaning::{Emitter, Room};

// A room of no losses, with no emitter.
pub fn no_room() -> Room
    ensures { result ≡ no_room }
{
    Room {
        loss: 0.0,
        exchange: [0.0f64; 3],
        emitter: Emitter::None,
    }
}

fn kind(room: Room) -> u8
    ensures { result ≡ kind_of room.emitter }
{
    match room.emitter {
        Emitter::None => 0,
        Emitter::Heater {
            coefficient: _,
            water: _,
        } => 1,
        Emitter::Steady { rate: _ } => 2,
    }
}

fn floats(room: Room) -> [f64; 6]
    ensures { result ≡ floats_of room }
{
    let (first, second) = match room.emitter {
        Emitter::None => (0.0, 0.0),
        Emitter::Heater { coefficient, water } => (coefficient, water),
        Emitter::Steady { rate } => (rate, 0.0),
    };
    let [g, h, i] = room.exchange;
    [room.loss, g, h, i, first, second]
}

pub fn kinds(rooms: [Room; 4]) -> [u8; 4]
    ensures { result ≡ kinds_of rooms }
{
    rooms.map(kind)
}

pub fn all_floats(rooms: [Room; 4]) -> [[f64; 6]; 4]
    ensures { result ≡ all_floats_of rooms }
{
    rooms.map(floats)
}

// A number that is no emitter's is none.
fn emitter(kind: u8, first: f64, second: f64) -> Emitter
    ensures { result ≡ emitter_from kind first second }
{
    match kind {
        1 => Emitter::Heater {
            coefficient: first,
            water: second,
        },
        2 => Emitter::Steady { rate: first },
        _ => Emitter::None,
    }
}

fn room(kind: u8, v: [f64; 6]) -> Room
    ensures { result ≡ room_from kind v }
{
    let exchange = [v[1], v[2], v[3]];
    Room {
        loss: v[0],
        exchange,
        emitter: emitter(kind, v[4], v[5]),
    }
}

pub fn rooms(kinds: [u8; 4], v: [[f64; 6]; 4]) -> [Room; 4]
    ensures { result ≡ rooms_from kinds v }
{
    std::array::from_fn(|i| room(kinds[i], v[i]))
}
