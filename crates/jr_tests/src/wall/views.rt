//! What viewers that look into cells see, while other threads fill them.

ghost use Rattle.std.specs.Prelude.{◌≡◌, IfOk};

use jr_code::Memory;
use jr_wall::{Cells, Piece, Sight};
use std::thread;
use std::thread::Threads;

/// What ten cells contain: 0 nothing, 1 a piece that is damaged or not of one grey, and otherwise 256 times one more than the
/// number of the piece, and its grey.
pub(crate) type Contents = [u32; 10];

fn content(number: u32, grey: u8) -> u32 {
    number
        .wrapping_add(1)
        .wrapping_mul(256)
        .wrapping_add(u32::from(grey))
}

/// Returns the contents of the pieces of ten sound intervals, each of one grey.
pub(crate) fn contents_of(greys: &[u8; 10]) -> Contents {
    let mut contents = [0; 10];
    for i in 0..10usize {
        contents[i] = content(i as u32, greys[i]);
    }
    contents
}

fn content_of(piece: &Piece) -> u32 {
    let Some(samples) = piece.block(0) else {
        return 1;
    };
    if !piece.is_sound() || *samples != [samples[0]; 64] {
        return 1;
    }
    content(piece.number(), samples[0])
}

/// Returns what the cell of a number contains; 0 also if there is no such cell.
fn look(cells: &Cells, number: u32, sight: &mut Sight) -> u32
    requires { sight.old.cells ≡ cells.now }
    ensures { sight.new.cells ≡ sight.old.cells }
{
    if number >= cells.count() {
        return 0;
    }
    match cells.look(number, sight) {
        Some(piece) => content_of(piece),
        None => 0,
    }
}

/// What a viewer saw: the content of each cell at its last look, and whether each content stayed the same.
#[derive(Drop)]
pub(crate) struct View {
    pub sight: Sight,
    pub contents: Contents,
    pub is_steady: bool,
}

/// Returns the view of a thread that has not looked.
fn blank_view(cells: &Cells) -> Result<View, Memory>
    ensures { IfOk result (λ v. v.sight.cells ≡ cells.now) }
{
    Ok(View {
        sight: cells.sight()?,
        contents: [0; 10],
        is_steady: true,
    })
}

/// Looks into each cell once.
fn look_over(cells: &Cells, view: &mut View)
    requires { view.old.sight.cells ≡ cells.now }
    ensures { view.new.sight.cells ≡ cells.now }
{
    for i in 0..10u32 {
        let now = look(cells, i, &mut view.sight);
        let before = view.contents[i as usize];
        if before > 0 && now != before {
            view.is_steady = false;
        }
        view.contents[i as usize] = now;
    }
}

/// Returns the contents of the cells for a thread that has not looked before.
pub(crate) fn contents_now(cells: &Cells) -> Result<Contents, Memory> {
    match blank_view(cells) {
        Ok(mut view) => {
            look_over(cells, &mut view);
            Ok(view.contents)
        }
        Err(refused) => Err(refused),
    }
}

/// Looks into each cell a hundred times.
fn watch(cells: &Cells) -> Result<View, Memory>
    ensures { IfOk result (λ v. v.sight.cells ≡ cells.now) }
{
    let mut view = blank_view(cells)?;
    for _ in 0..100u32 {
        look_over(cells, &mut view);
    }
    Ok(view)
}

/// Two viewers in threads of their own.
pub(crate) fn watch_twice<R: Threads + Sync>(
    rt: &R,
    cells: &Cells,
) -> (Result<View, Memory>, Result<View, Memory>)
    ensures { IfOk result.0 (λ v. v.sight.cells ≡ cells.now) × IfOk result.1 (λ v. v.sight.cells ≡ cells.now) }
{
    thread::join(
        rt,
        || -> Result<View, Memory>
            ensures { IfOk result (λ v. v.sight.cells ≡ cells.entry.now) }
        { watch(cells) },
        || -> Result<View, Memory>
            ensures { IfOk result (λ v. v.sight.cells ≡ cells.entry.now) }
        { watch(cells) },
    )
}

/// Returns whether the viewer saw each piece at every look after the first that found it, and each as it is last.
pub(crate) fn is_kept(view: &View, last: &Contents) -> bool {
    let mut is_kept = view.is_steady;
    for i in 0..10usize {
        is_kept = is_kept && (view.contents[i] == 0 || view.contents[i] == last[i]);
    }
    is_kept
}
