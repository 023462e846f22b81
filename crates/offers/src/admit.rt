// What refuses a call before it changes anything.
ghost use Rattle.std.specs.Prelude.{◌≡◌, ◌∷◌, [], ltb};
ghost use Rattle.rules.specs.Offer.{refusal};
ghost use Rattle.offers.specs.Refused.{refused_by};

use refusals::Refusal;

// Refused 1: a reader above 7.
#[tactic(auto, unfolding(rules::specs::Offer::refusal))]
pub(crate) fn admit_reader(reader: u8) -> Result<(), Refusal>
    ensures { refused_by result ≡ refusal ((1, ltb 7 reader) ∷ []) }
{
    if 7 < reader {
        return Err(Refusal::ReaderAboveSeven);
    }
    Ok(())
}
