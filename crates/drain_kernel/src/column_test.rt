//! A test at each column of a stretch, in a loop of its own without a branch.

ghost use Rattle.std.specs.Prelude.{◌≤◌, IsTrue};
ghost use Rattle.drain_kernel.specs.Columns.{Along};

/// A test at a column.
pub(crate) trait ColumnTest {
    ghost use Rattle.std.specs.Prelude.{◌≡◌, ℕ, IsTrue, false};

    /// Where it may be called.
    ghost CanTest: { Self → ℕ → Type 0 };

    /// What is known of a column that passes.
    ghost Passed: { Self → ℕ → Type 0 };

    /// What is known of a column that fails. By default nothing: a narrow test may fail where the rule holds.
    ghost Failed: { Self → ℕ → Type 0 } = { λ test k. Unit {0} };

    /// Whether the column passes.
    fn passes(&self, k: usize) -> bool
        requires { CanTest self.now k }
        ensures passed { IsTrue result → Passed self.now k }
        ensures failed { result ≡ false → Failed self.now k };
}

/// Whether each column of `from..end` passes the test.
#[inline(never)]
#[tactic(auto, using(crate::proofs::VouchedNumbers::along_more))]
pub(crate) fn passes_along<T: ColumnTest>(test: &T, from: usize, end: usize) -> bool
    requires ordered { from ≤ end }
    requires tested { Along from end (T.CanTest test.now) }
    ensures { IsTrue result → Along from end (T.Passed test.now) }
{
    let mut all = true;
    for k in from..end {
        all &= test.passes(k);
    }
    all
}
