// The sheet's equations in f64, every operation rounded once, in document 01's order and with what request 2026-02 adds. Relies on meaning's Sheet.
// Leaves out the rounding to whole numbers (wholes).
ghost use Rattle.std.specs.Prelude.{◌≡◌, ◌-◌, ◌/◌, ◌%◌, ◌^◌, ◌≤◌, ◌<◌, eqb};
ghost use Rattle.laws.specs.Lists.{tab};
ghost use Rattle.meaning.specs.Sheets as S;
ghost use Rattle.meaning.specs.Sheets.{room_at, exchange_at, sum_from, loss_sum, has_emitter};
ghost use Rattle.sheets.specs.Equations.{sums_of, bits_of};

use meaning::{Emitter, Room, Sheet};

// Room i.
fn room_of(h: Sheet, i: usize) -> Room
    requires { i < 4 }
    ensures { result ≡ room_at h i }
{
    // bound first: indexed in the sheet, the whole of it would be copied for each coefficient
    let rooms = h.rooms;
    rooms[i]
}

// A room's exchange with the j-th of the other rooms.
fn exchange(room: Room, j: usize) -> f64
    requires { j < 3 }
    ensures { result ≡ exchange_at room j }
{
    room.exchange[j]
}

// The loss, then each exchange added, j ascending.
fn loss_sum(n: usize, loss: f64, room: Room) -> f64
    requires fact_1 { 1 ≤ n }
    requires fact_2 { n ≤ 4 }
    ensures { result ≡ sum_from loss (tab (exchange_at room) (n - 1) 0) }
{
    let mut s = loss;
    for g in &room.exchange[..n - 1] {
        s += *g;
    }
    s
}

// The sums of all rooms, which every mode shares: what a heater adds comes behind them.
pub fn loss_sums(h: Sheet) -> [f64; 4]
    requires fact_1 { 1 ≤ h.n }
    requires fact_2 { h.n ≤ 4 }
    ensures { result ≡ sums_of h }
{
    let mut sums = [0.0f64; 4];
    for i in 0..h.n {
        let room = room_of(h, i);
        sums[i] = loss_sum(h.n, room.loss, room);
    }
    sums
}

fn has_emitter(e: Emitter) -> usize
    ensures { result ≡ has_emitter e }
{
    match e {
        Emitter::None => 0,
        Emitter::Heater {
            coefficient: _,
            water: _,
        } => 1,
        Emitter::Steady { rate: _ } => 1,
    }
}

// How many of the first m rooms have an emitter.
pub fn emitters(h: Sheet, m: usize) -> usize
    requires { m ≤ 4 }
    ensures { result ≡ S.emitters h m }
{
    let mut t: usize = 0;
    for room in &h.rooms[..m] {
        t += has_emitter(room.emitter);
    }
    t
}

// The bit of each room in a mode: the number of emitters in the rooms before it.
pub fn bits(h: Sheet) -> [usize; 4]
    requires { h.n ≤ 4 }
    ensures { result ≡ bits_of h }
{
    let mut bits = [0usize; 4];
    for i in 0..h.n {
        bits[i] = emitters(h, i);
    }
    bits
}

// Whether mode u has a bit set.
fn switched(u: usize, bit: usize) -> bool
    requires { bit < 64 }
    ensures { result ≡ eqb (u / 2 ^ bit % 2) 1 }
{
    (u >> bit) % 2 == 1
}

// A sum of losses with the emitter on: a heater's coefficient is added last.
fn gained(s: f64, e: Emitter) -> f64
    ensures { result ≡ S.gained s e }
{
    match e {
        Emitter::None => s,
        Emitter::Heater {
            coefficient,
            water: _,
        } => s + coefficient,
        Emitter::Steady { rate: _ } => s,
    }
}

// Diagonal 1 − time·s, s being the room's sum and what its emitter adds where mode u has it on; off it time·g_ij. Room i has no exchange with
// itself, so those behind the gap stand one place lower.
pub fn coefficient(h: Sheet, sum: f64, bit: usize, u: usize, i: usize, j: usize) -> f64
    requires fact_1 { h.n ≤ 4 }
    requires fact_2 { i < h.n }
    requires fact_3 { j < h.n }
    requires fact_4 { sum ≡ loss_sum h.n (room_at h i) }
    requires fact_5 { bit ≡ S.emitters h i }
    ensures { result ≡ S.coefficient h u i j }
{
    let room = room_of(h, i);
    let time = h.time;
    if i == j {
        if switched(u, bit) {
            return 1.0 - time * gained(sum, room.emitter);
        }
        return 1.0 - time * sum;
    }
    if j < i {
        return time * exchange(room, j);
    }
    time * exchange(room, j - 1)
}

// An offset with the emitter on.
fn pushed(c: f64, time: f64, e: Emitter) -> f64
    ensures { result ≡ S.pushed c time e }
{
    match e {
        Emitter::None => c,
        Emitter::Heater { coefficient, water } => c + time * (coefficient * water),
        Emitter::Steady { rate } => c + time * rate,
    }
}

// Offset c = time·(loss·outside), and what the room's emitter adds where mode u has it on.
pub fn offset(h: Sheet, bit: usize, u: usize, i: usize) -> f64
    requires fact_1 { i < 4 }
    requires fact_2 { bit ≡ S.emitters h i }
    ensures { result ≡ S.offset h u i }
{
    let room = room_of(h, i);
    let c = h.time * (room.loss * h.outside);
    if switched(u, bit) {
        return pushed(c, h.time, room.emitter);
    }
    c
}
