// Clean pairs per thousand: the nearest whole number.
ghost use Rattle.std.specs.Prelude.{◌≡◌, ◌≤◌};
ghost use Rattle.same_crossings.specs.CountLaws.{sum_of_counts};
ghost use Rattle.textform_report.specs.Permille as Permille;
ghost use Rattle.textform_report.specs.Permille.{most_pairs_of_season};

use arcstring_tally::counts::Counts;

// The whole number nearest to 1,000 times clean, divided by all pairs; an exact half goes up. 0 where there are no pairs.
pub fn permille(c: Counts) -> u64
    requires { sum_of_counts c ≤ most_pairs_of_season }
    ensures { result ≡ Permille.permille c }
{
    let pairs = c.clean + c.end + c.grazing + c.apart;
    if pairs == 0 {
        return 0;
    }
    (2 * (1000 * c.clean) + pairs) / (2 * pairs)
}
