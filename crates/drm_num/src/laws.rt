//! Laws of intervals. Each function does nothing: its contract is the law.

ghost use Rattle.drm_num.specs.Inclusion.{InclusionIsOfNumbers, SumsKeepInclusion, DifferencesKeepInclusion, MultiplesKeepInclusion, CommonPartsKeepInclusion, HullsKeepInclusion, ProductSumsKeepInclusion, ProductDifferencesKeepInclusion, WidthsRise, GapsFall};

/// An interval is included in another exactly where each of its numbers lies in the other.
pub fn inclusion_is_of_numbers()
    ensures { InclusionIsOfNumbers }
{}

/// Each operation is monotone in its arguments, with its rounding: smaller intervals give a smaller interval, which is no
/// wider, and they are no nearer to each other.
pub fn operations_keep_inclusion()
    ensures sums { SumsKeepInclusion }
    ensures differences { DifferencesKeepInclusion }
    ensures multiples { MultiplesKeepInclusion }
    ensures common_parts { CommonPartsKeepInclusion }
    ensures hulls { HullsKeepInclusion }
    ensures product_sums { ProductSumsKeepInclusion }
    ensures product_differences { ProductDifferencesKeepInclusion }
    ensures widths { WidthsRise }
    ensures gaps { GapsFall }
{}
