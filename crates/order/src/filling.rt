// The memory of a sheet, filled with the places of an order.
ghost use Rattle.std.specs.Prelude.{◌≡◌, ◌^◌, ◌<◌, ◌≤◌, length};
ghost use Rattle.std.specs.List.{AllByRecursion};
ghost use Rattle.order.specs.Texts.{filled};

// Puts the number of each place into the lower 26 bits of one number of the memory.
pub(crate) fn fill(memory: &mut [u32], masks: &[u32])
    requires fits { length masks.now ≤ length memory.old }
    requires small { AllByRecursion (λ mask. mask < 2 ^ 26) masks.now }
    ensures { memory.new ≡ filled masks.now memory.old }
{
    // Written by index: with `memory.iter_mut().zip(masks)` the proof did not close.
    for (i, mask) in masks.iter().enumerate() {
        memory[i] = (memory[i] >> 26 << 26) | *mask;
    }
}
