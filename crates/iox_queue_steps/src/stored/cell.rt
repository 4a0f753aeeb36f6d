//! Cells by compare and subtract.
ghost use Rattle.std.specs.Prelude.{◌≡◌, ◌+◌, ◌<◌, ◌≤◌};
ghost use Rattle.iox_steps.specs.Sites.{cells, cell_at as place_of_cell};
ghost use Rattle.iox_queue_steps.specs.StoredPlaces.{KnowsCell};

use iox_steps::Site;

/// The position that is expected next, its cell, and the last cell.
#[derive(Clone, Copy)]
pub struct Cursor {
    /// the position that is expected
    pub next: u64,
    /// the place of that position's cell
    pub cell: usize,
    /// the place of the last cell of the queue
    pub last: usize,
}

impl Cursor {
    ghost use Rattle.std.specs.Prelude.{◌≡◌, ◌+◌, ◌^◌, ◌<◌};
    ghost use Rattle.iox_steps.specs.Sites.{size, cell_at as place_of_cell};
    ghost use Rattle.iox_queue_steps.specs.StoredPlaces.{KnowsCell};

    /// Expects this position first. It divides.
    pub fn new(site: Site, position: u64) -> Cursor
        requires { site.base + size site < 2 ^ 64 }
        ensures { KnowsCell site result }
    {
        Cursor {
            next: position,
            cell: site.cell_at(position),
            last: site.base + 1 + site.cells(),
        }
    }

    /// The cell of a position, after which the next is expected.
    #[inline]
    pub fn visit(&mut self, site: Site, position: u64) -> usize
        requires { KnowsCell site self.old }
        ensures cell { result ≡ place_of_cell site position }
        ensures knows { KnowsCell site self.new }
    {
        let cell = if position == self.next {
            self.cell
        } else {
            self.cell_elsewhere(site, position)
        };
        if position != u64::MAX {
            self.cell = cell_after(site, self.last, position, cell);
            self.next = position + 1;
        }
        cell
    }

    /// The cell of a position that may be ahead of the expected one. It divides only if the
    /// position is more than a round ahead, or behind.
    #[inline(always)]
    fn cell_elsewhere(&self, site: Site, position: u64) -> usize
        requires { KnowsCell site self.now }
        ensures { result ≡ place_of_cell site position }
    {
        if position > self.next && position - self.next <= site.cells() as u64 {
            let ahead = (position - self.next) as usize;
            cell_ahead(site, *self, ahead)
        } else {
            site.cell_at(position)
        }
    }

    /// The cell of a position that may be one round before the expected one: both have one cell.
    #[inline]
    pub fn before(&self, site: Site, position: u64) -> usize
        requires { KnowsCell site self.now }
        ensures { result ≡ place_of_cell site position }
    {
        let round = (site.cells() as u64).max(1);
        if position <= self.next && self.next - position == round {
            self.cell
        } else {
            site.cell_at(position)
        }
    }
}

/// The cell of the next position.
#[inline]
fn cell_after(site: Site, last: usize, position: u64, cell: usize) -> usize
    requires { KnowsCell site (record { next = position; cell = cell; last = last }) }
    ensures { result ≡ place_of_cell site (position + 1) }
{
    // only the contract names the position
    let _position = position;
    if cell < last { cell + 1 } else { site.base + 2 }
}

/// The cell of the position that is `ahead` positions after the expected one, at most one round of
/// the cells.
#[inline]
fn cell_ahead(site: Site, cursor: Cursor, ahead: usize) -> usize
    requires knows { KnowsCell site cursor }
    requires some { 0 < ahead }
    requires round { ahead ≤ cells site }
    ensures { result ≡ place_of_cell site (cursor.next + ahead) }
{
    let behind = cursor.last - cursor.cell;
    if ahead <= behind {
        cursor.cell + ahead
    } else {
        site.base + 1 + (ahead - behind)
    }
}
