// The weights of a batch: of one colour, of a block, and the total with all of them.
ghost use Rattle.std.specs.Prelude.{◌≡◌, true, cond, ◌+◌, ◌-◌, ◌*◌, ◌≤◌, ◌<◌, length, get_or, is_some};
ghost use Rattle.table.specs.Sound.{limit};
ghost use Rattle.adder.specs.Add.{IsScale};
ghost use Rattle.adder.specs.Add.{given};
ghost use Rattle.adder.specs.Inner.{weights_from, all_weights, held_to};

// The sum of a block of weights.
fn block_sum(weights: &[u32]) -> u64
    requires { length weights.now ≤ 4096 }
    ensures sum { result ≡ all_weights weights.now }
    ensures small { result ≤ 17592186040320 }
{
    let mut sum = 0;
    for w in weights {
        sum += u64::from(*w);
    }
    sum
}

// The total with the weights added, each multiplied by the scale. All of them can add up to more than a u64 holds, so
// the sum is held to the limit after each block.
fn weights_total(most: u64, had: u64, weights: &[u32], scale: u64) -> Option<u64>
    requires { (had ≤ most) × (most ≤ limit) × (scale ≤ 4096) }
    ensures { result ≡ held_to most (had + scale * all_weights weights.now) }
{
    let mut total = had;
    for block in weights.chunks(4096) {
        total += scale * block_sum(block);
        if most < total {
            return None;
        }
    }
    Some(total)
}

// The total with n colours of a batch added, each weight multiplied by the scale. Without weights n times the scale can
// be more than a u64 holds, so n is compared with what is left, divided.
pub(crate) fn batch_total(
    most: u64,
    had: u64,
    n: usize,
    weights: Option<&[u32]>,
    scale: u64,
) -> Option<u64>
    requires { (had ≤ most) × (most ≤ limit) × IsScale scale }
    ensures { result ≡ held_to most (had + scale * cond (is_some weights.entry) (all_weights (given weights.entry)) n) }
{
    if let Some(weights) = weights {
        return weights_total(most, had, weights, scale);
    }
    if (most - had) / scale < n as u64 {
        return None;
    }
    Some(had + scale * n as u64)
}

// The weight of colour i, multiplied by the scale.
pub(crate) fn weight_at(weights: Option<&[u32]>, scale: u64, i: usize) -> u64
    requires { (scale ≤ 4096) × (is_some weights ≡ true → i < length (given weights)) }
    ensures { result ≡ scale * cond (is_some weights.entry) (get_or (given weights.entry) i 0) 1 }
{
    match weights {
        Some(weights) => scale * u64::from(weights[i]),
        None => scale,
    }
}

// The weight of n colours from colour i on, multiplied by the scale.
pub(crate) fn block_weight(weights: Option<&[u32]>, scale: u64, i: usize, n: usize) -> u64
    requires { (n ≤ 64) × (scale ≤ 4096) × (is_some weights ≡ true → i + n ≤ length (given weights)) }
    ensures { result ≡ scale * cond (is_some weights.entry) (weights_from (given weights.entry) i n) n }
{
    match weights {
        Some(weights) => scale * block_sum(&weights[i..][..n]),
        None => scale * n as u64,
    }
}
