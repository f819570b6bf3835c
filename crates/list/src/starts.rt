// The listing of a start file (document 02, request 2026-03): for each box a header, its index, edges, tiles and longest pattern, and then the tiles of its table.
// Relies on crate tables for the verdict, on page listings for a table. Leaves out what the checker refuses: that is told as of a plant.
use crate::boxes::{Bx, Side};
use crate::listings;
use crate::readers::Reader;
use desk::tellings;
use files::plants;
use meaning::Outline;
use std::alloc::{AllocError, Global};
use tables::start_checks;

// The box of n sides whose edges come next.
fn read_box(n: usize, start: &mut Reader) -> Option<Bx> {
    let mut sides = [Side { lo: 0, hi: 0 }; 4];
    for side in sides.iter_mut().take(n) {
        *side = Side {
            lo: start.signed()?,
            hi: start.signed()?,
        };
    }
    Some(Bx::new(n, sides))
}

// R, and the boxes of the chain behind it, as many as the file says behind its form.
fn read_boxes(alloc: Global, p: &Outline, start: &mut Reader) -> Result<Vec<Bx>, AllocError> {
    let mut boxes = Vec::new(alloc);
    boxes.push(Bx::from(p))?;
    let _form = start.number();
    let m = start.number().unwrap_or(0);
    for _ in 0..m {
        let Some(b) = read_box(p.n, start) else {
            break;
        };
        boxes.push(b)?;
    }
    Ok(boxes)
}

// The table that comes next, its length in front.
fn read_part<'a>(start: &mut Reader<'a>) -> Option<&'a [u8]> {
    let length = start.number()?;
    start.part(length)
}

// A start file that was judged: its boxes, and then a table of each.
fn show(rt: &(impl Print + AllocGlobal), p: &Outline, file: &[u8]) -> Result<(), AllocError> {
    let mut start = Reader::new(file);
    let boxes = read_boxes(rt.alloc(), p, &mut start)?;
    for (i, b) in boxes.iter().enumerate() {
        let Some(table) = read_part(&mut start) else {
            break;
        };
        listings::show_part(rt, p.d, i, table, *b)?;
    }
    Ok(())
}

// The listing of a start file for a plant's file, or its refusal.
pub fn list(rt: &(impl Print + AllocGlobal), plant: &[u8], start: &[u8]) -> Result<(), AllocError> {
    if let Err(e) = start_checks::start_check(plant, start) {
        tellings::tell_place(rt, e);
        return Ok(());
    }
    match plants::judge_plant(plant) {
        Ok(p) => show(rt, &p, start),
        Err(_) => Ok(()),
    }
}
