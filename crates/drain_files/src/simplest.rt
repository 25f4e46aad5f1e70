//! The ratio of the least whole numbers that lies between two others: by continued fractions.

ghost use Rattle.drain_files.specs.Simplest.{AreBounds, IsSimplest};

/// A ratio of two whole numbers, the width to the height.
#[derive(Clone, Copy)]
pub struct Ratio {
    pub width: u128,
    pub height: u128,
}

/// Of the ratios from `low` to `high`, both of them too, the one of the least whole numbers: no other has a smaller
/// width or a smaller height.
pub fn simplest(low: Ratio, high: Ratio) -> Ratio
    requires { AreBounds low high }
    ensures { IsSimplest low high result }
{
    let whole = low.width / low.height;
    let rest = low.width % low.height;
    if rest == 0 {
        return Ratio {
            width: whole,
            height: 1,
        };
    }
    if whole < high.width / high.height {
        return Ratio {
            width: whole + 1,
            height: 1,
        };
    }
    // Both lie between `whole` and the next number: what is above `whole`, turned over, lies between these.
    let inner = simplest(
        Ratio {
            width: high.height,
            height: high.width - whole * high.height,
        },
        Ratio {
            width: low.height,
            height: rest,
        },
    );
    Ratio {
        width: whole * inner.width + inner.height,
        height: inner.width,
    }
}
