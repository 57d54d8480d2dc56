//! The ranges of addresses that hold code.
ghost use Rattle.std.specs.Prelude.{◌≡◌, IfOk};
ghost use Rattle.analysis_model.specs.Cover.{is_within};
ghost use Rattle.analysis_model.specs.Made.{code_numbers, ranges_made_of};
ghost use Rattle.coverage_map.specs.Coverage.{area_numbers, holds};

use elf_image::Segment;
use memory_map::NoMemory;
use std::alloc::Global;

/// A range of code: `size` addresses from `address` on.
#[derive(Clone, Copy)]
pub struct Area {
    address: u32,
    size: u32,
}

impl Area {
    // Whether it has this address.
    fn holds(&self, pc: u32) -> bool
        ensures { result ≡ holds self.now pc }
    {
        self.address <= pc && pc - self.address < self.size
    }
}

/// Whether some range of code has this address.
pub fn is_code(code: &[Area], pc: u32) -> bool
    ensures { result ≡ is_within (ranges_made_of (area_numbers code.now)) pc }
{
    for area in code {
        if area.holds(pc) {
            return true;
        }
    }
    false
}

/// The executable segments, in order.
pub fn code_of(alloc: Global, segments: &[Segment]) -> Result<Vec<Area>, NoMemory>
    ensures { IfOk result (λ code. area_numbers code.items ≡ code_numbers segments.now) }
{
    let mut code = Vec::new(alloc);
    for segment in segments {
        if segment.executable {
            code.push(Area {
                address: segment.address,
                size: segment.size,
            })?;
        }
    }
    Ok(code)
}
