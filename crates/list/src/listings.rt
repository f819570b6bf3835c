// The listing (document 01, "The listing program"; requests 2026-06 and 2026-01): the table of a plant in the form that is asked for, a line for each tile in file order.
// Relies on crate tables for the table, on boxes for the tiles' boxes. Leaves out whether a table is right: it lists what the maker made.
// A table is walked twice: its header tells how many tiles there are, before the first of them.
use crate::boxes::Bx;
use crate::readers::Reader;
use desk::tellings;
use figures::lines::Lines;
use files::plants;
use meaning::Outline;
use std::alloc::AllocError;
use tables::makes;

// Lines are told once there are so many bytes of them. No line has more than 98: what is told at once, fewer than 4,096 bytes, takes no more memory than that
// and goes into a pipe whole or not at all.
const FULL: usize = 3_968;

// What a walk does with a table's tiles.
trait Tiles {
    // A tile over box b, of k modes, which come next in the table.
    fn tile(&mut self, k: usize, b: Bx, table: &mut Reader) -> Result<(), AllocError>;
}

// How many tiles were passed, and their longest pattern.
#[derive(Clone, Copy)]
struct Tally {
    tiles: usize,
    longest: usize,
}

impl Tiles for Tally {
    fn tile(&mut self, k: usize, _b: Bx, table: &mut Reader) -> Result<(), AllocError> {
        table.pass(k);
        self.tiles = self.tiles.saturating_add(1);
        self.longest = self.longest.max(k);
        Ok(())
    }
}

// The lines that are not told yet, and where they are told.
#[derive(Drop)]
struct Listing<'a, P> {
    out: &'a P,
    lines: Lines,
}

impl<P: Print> Listing<'_, P> {
    fn tell(&mut self) {
        tellings::say(self.out, self.lines.as_bytes());
        self.lines.bytes.clear();
    }
}

impl<P: Print> Tiles for Listing<'_, P> {
    // The sides, a colon, and each mode behind a blank.
    fn tile(&mut self, k: usize, b: Bx, table: &mut Reader) -> Result<(), AllocError> {
        b.tell(&mut self.lines)?;
        self.lines.text(":")?;
        for _ in 0..k {
            let Some(mode) = table.number() else {
                break;
            };
            self.lines.text(" ")?;
            self.lines.number(mode)?;
        }
        self.lines.text("\n")?;
        if FULL <= self.lines.as_bytes().len() {
            self.tell();
        }
        Ok(())
    }
}

// A table's form, and what is left of it.
#[derive(Clone, Copy)]
struct Rest<'a> {
    form: usize,
    table: Reader<'a>,
}

impl Rest<'_> {
    // Past the lengths that a split of form 2 tells, one of each child but the last.
    fn past_lengths(&mut self, children: usize) {
        if self.form == 2 {
            self.table.pass(children.saturating_sub(1));
        }
    }

    // The tree over box b, with depth d left.
    fn tree(&mut self, d: usize, b: Bx, tiles: &mut impl Tiles) -> Result<(), AllocError> {
        let Some(k) = self.table.number() else {
            return Ok(());
        };
        if 0 < k {
            return tiles.tile(k, b, &mut self.table);
        }
        if d == 0 {
            return Ok(());
        }
        let count = b.count(self.form);
        self.past_lengths(count);
        for x in 0..count {
            self.tree(d - 1, b.child(self.form, x), tiles)?;
        }
        Ok(())
    }
}

// How deep the splits of a form may go in a plant of depth d: where one side is halved at a time, as often as there are sides. No plant has a d above 6: one
// that had would be left as it is, so that nothing overflows.
fn depth(form: usize, d: usize, b: &Bx) -> usize {
    if form == 3 && d <= 6 {
        b.sides().len() * d
    } else {
        d
    }
}

// The walk of a whole table over its box, by the table's own form, which stands in front, and n behind it.
fn walk(d: usize, table: &[u8], root: Bx, tiles: &mut impl Tiles) -> Result<(), AllocError> {
    let mut table = Reader::new(table);
    let form = table.number().unwrap_or(0);
    let _n = table.number();
    Rest { form, table }.tree(depth(form, d, &root), root, tiles)
}

// A table over its box: behind what the header says already, tiles and longest pattern, and then the tiles.
fn show(
    rt: &impl Print,
    mut header: Lines,
    d: usize,
    table: &[u8],
    root: Bx,
) -> Result<(), AllocError> {
    let mut tally = Tally {
        tiles: 0,
        longest: 0,
    };
    walk(d, table, root, &mut tally)?;
    header.text(" ")?;
    header.number(tally.tiles)?;
    header.text(" ")?;
    header.number(tally.longest)?;
    header.text("\n")?;
    let mut listing = Listing {
        out: rt,
        lines: header,
    };
    walk(d, table, root, &mut listing)?;
    listing.tell();
    Ok(())
}

// A table made for that plant, behind a header: n, tiles, longest pattern.
fn show_table(
    rt: &(impl Print + AllocGlobal),
    p: &Outline,
    table: &[u8],
) -> Result<(), AllocError> {
    let mut header = Lines::new(rt.alloc());
    header.text("table ")?;
    header.number(p.n)?;
    show(rt, header, p.d, table, Bx::from(p))
}

// The table of box i of a start file, behind a header: index, edges, a colon, tiles, longest pattern.
pub fn show_part(
    rt: &(impl Print + AllocGlobal),
    d: usize,
    i: usize,
    table: &[u8],
    b: Bx,
) -> Result<(), AllocError> {
    let mut header = Lines::new(rt.alloc());
    header.text("box ")?;
    header.number(i)?;
    header.text(" ")?;
    b.tell(&mut header)?;
    header.text(":")?;
    show(rt, header, d, table, b)
}

// The listing of a plant's table of that form, or the refusal. No table has more bytes than there is room for.
pub fn list(rt: &(impl Print + AllocGlobal), plant: &[u8], form: usize) -> Result<(), AllocError> {
    let mut table = vec![in rt.alloc(); 0u8; 58_965]?;
    match makes::make(plant, form, table.as_mut_slice()) {
        Err(e) => tellings::tell_place(rt, e),
        Ok(length) => {
            table.truncate(length);
            if let Ok(p) = plants::judge_plant(plant) {
                show_table(rt, &p, table.as_slice())?;
            }
        }
    }
    Ok(())
}
