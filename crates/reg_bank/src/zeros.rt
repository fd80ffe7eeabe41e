ghost use Rattle.std.specs.Prelude.{◌≡◌, length, IfOk};
ghost use Rattle.std.specs.List.{All};

use clk_io::NoMemory;
use std::alloc::Global;

/// So many words of 0.
pub(crate) fn zeros(alloc: Global, count: usize) -> Result<Vec<u32>, NoMemory>
    ensures words { IfOk result (λ cells. length cells.items ≡ count) }
    ensures zero { IfOk result (λ cells. All (λ value. value ≡ 0) cells.items) }
{
    let cells = vec![in alloc; 0u32; count]?;
    Ok(cells)
}
