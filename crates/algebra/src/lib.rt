// The max-plus algebra: what the calls answer, as products, powers and residuals of matrices.
#![tactic(auto)]

ghost use Rattle.algebra.specs.Theorems.{RoundsAreProducts, RoundsArePowers, EarliestIsStar, LeastFromIsStar, LatestIsStar, FinishIsProduct, BackwardIsResidual, ClosestIsResidual, FlowIsGreatestMean};

/// The solver's rounds from any first totals are these times a sum of powers.
pub fn rounds_are_products()
    ensures { RoundsAreProducts }
{}

/// From the opening alone they are its column of the sum of powers.
pub fn rounds_are_powers()
    ensures { RoundsArePowers }
{}

/// The least times are the opening's column of A*.
pub fn earliest_is_star()
    ensures { EarliestIsStar }
{}

/// The least times from any first totals b are A* ⊗ b.
pub fn least_from_is_star()
    ensures { LeastFromIsStar }
{}

/// The greatest times are those of the transposed matrix, with every sign changed.
pub fn latest_is_star()
    ensures { LatestIsStar }
{}

/// The finishes are y = A ⊗ x.
pub fn finish_is_product()
    ensures { FinishIsProduct }
{}

/// The latest starts in time are (d⁻ ⊗ A)⁻, the greatest x with A ⊗ x ≼ d
/// wherever they have an entry.
pub fn backward_is_residual()
    ensures { BackwardIsResidual }
{}

/// The smallest largest distance is ⌈Δ / 2⌉ with Δ = (A ⊗ (d⁻ ⊗ A)⁻)⁻ ⊗ d, and the starts are moved
/// by it.
pub fn closest_is_residual()
    ensures { ClosestIsResidual }
{}

/// Where only start-to-finish lags stand, the flow is the least whole F ≥ 0 for which no cycle of
/// (−F) ⊗ A has a sum after zero, that is tr Aᵏ ≼ k · F for every k: the greatest mean of a cycle,
/// rounded up and not below nought.
pub fn flow_is_greatest_mean()
    ensures { FlowIsGreatestMean }
{}
