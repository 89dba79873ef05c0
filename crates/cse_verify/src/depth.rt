//! How much the calls of a run keep at most.

ghost use Rattle.std.specs.Prelude.{◌≡◌};
ghost use Rattle.cse_verify.specs.Frames.{greatest as greatest_number};
ghost use Rattle.cse_verify.specs.Measured.{IsGreatest};

use cse_code_typing::Depth as Cells;

/// How much a run keeps at most at once, over all of its calls: numbers, texts, ordinals (indexes and
/// occurrences), and open brackets.
#[derive(Clone, Copy)]
pub struct Depth {
    pub nums: u64,
    pub texts: u64,
    pub ords: u64,
    pub frames: u64,
}

/// The greatest of the numbers.
fn greatest_of(numbers: &[u64]) -> u64
    ensures { result ≡ greatest_number numbers.now }
{
    let mut most = 0;
    'numbers: for number in numbers {
        most = u64::max(most, *number);
    }
    most
}

/// The greatest depth of the routines, by their depths and by their open brackets.
pub fn depth_of(cells: &[Cells], frames: &[u64]) -> Depth
    ensures { IsGreatest cells.now frames.now result }
{
    let mut nums = 0;
    let mut texts = 0;
    let mut ords = 0;
    'cells: for depth in cells {
        nums = u64::max(nums, depth.numbers);
        texts = u64::max(texts, depth.texts);
        ords = u64::max(ords, depth.ordinals);
    }
    Depth {
        nums,
        texts,
        ords,
        frames: greatest_of(frames),
    }
}
