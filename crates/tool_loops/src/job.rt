//! A job over blocks, once it is tested that these are what its loop needs.

use acc_base::{BlockId, Fault, Listed, Range, Shared};
use acc_kernel::{Job, Kernel, are_distinct};
use std::alloc::Global;

/// A job of the loop over these blocks, if they name each array once and have all cells that it reaches; in the memory of another
/// job, if there is one.
///
/// # Errors
///
/// `Memory` where memory is refused.
pub fn job_of(
    alloc: Global,
    spare: Option<Box<Job>>,
    kernel: &Shared<Kernel>,
    uses: &Shared<Listed<(BlockId, Range)>>,
) -> Result<Option<Box<Job>>, Fault> {
    let listed = uses.get().as_slice();
    if !are_distinct(listed) || !kernel.get().is_held_by(listed) {
        return Ok(None);
    }
    let job = match spare {
        None => Job::new(alloc, kernel, uses)?,
        Some(spare) => Box::into_inner(spare).renewed(alloc, kernel, uses)?,
    };
    Ok(Some(Box::new(alloc, job)?))
}

/// Sets each input of a job to the value of its array's cell.
///
/// # Errors
///
/// `Memory` where memory is refused.
pub fn set_inputs<V: Fn(u8, u32) -> i64>(
    alloc: Global,
    job: &mut Job,
    value: V,
) -> Result<(), Fault>
    requires { V.IsAlwaysCallable value }
{
    for place in 0..job.read_uses().len() {
        if let Some((_, range)) = job.read_uses().get(place) {
            let Range { array, lo, len } = *range;
            let mut values = Vec::new(alloc);
            for k in 0..len {
                values.push(value(array, lo.wrapping_add(k)))?;
            }
            set_input(job, place, values.as_slice());
        }
    }
    Ok(())
}

// Sets the input at a place, if it has as many cells.
fn set_input(job: &mut Job, place: usize, values: &[i64]) {
    if let Some((_, range)) = job.read_uses().get(place) {
        if range.len as usize == values.len() {
            job.set_input(place, values);
        }
    }
}

/// Stores what a job has for an array over values of the array's cells from 0 on.
pub fn store_outputs(job: &Job, array: u8, cells: &mut [i64]) {
    for (place, (_, range)) in job.written_uses().iter().enumerate() {
        if range.array == array {
            for (k, value) in job.output(place).iter().enumerate() {
                if let Some(cell) = cells.get_mut((range.lo as usize).wrapping_add(k)) {
                    *cell = *value;
                }
            }
        }
    }
}
