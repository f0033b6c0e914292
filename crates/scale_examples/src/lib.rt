// What a client of the scales writes: a function over any scale, proved once, and examples at the edges of the three scales.
#![tactic(auto)]

ghost use Rattle.std.specs.Prelude.{◌≡◌};
ghost use Rattle.scale.specs.Ops.{lesser_of};

use scale::Scale;

#[cfg(test)]
mod tests;

/// The lesser price of two works that are each done together with a third one. By the laws of a scale one join does for two.
pub fn cheaper_whole<S: Scale>(one: S, other: S, common: S) -> S
    ensures { result ≡ lesser_of S.ops (S.ops.join one common) (S.ops.join other common) }
{
    one.lesser(other).join(common)
}
