//! The summary of a made run.
ghost use Rattle.std.specs.Prelude.{◌≡◌, ◌∷◌, ◌++◌, [], OnOk, codes, decimal, string_bytes};
ghost use Rattle.whips_reports.specs.Lines.{words, counts_words, text_of};
ghost use Rattle.whips_reports.specs.Summary.{counted_lines};
ghost use Rattle.whips_tally.specs.Tallies.{counts_from};

use crate::Tally;
use std::alloc::AllocError;
use whips_rel::NoMemory;
use whips_report::{Labels, push_counts};

impl Tally {
    /// The line of the updates, the versions after the first, and the rows of each view at the end.
    fn push_updates(&self, text: &mut String, size: u32, labels: &Labels) -> Result<(), AllocError>
        ensures { OnOk result (string_bytes text.new ≡ string_bytes text.old
            ++ words (codes "updates" ∷ decimal size ∷ codes "versions"
            ∷ decimal (counts_from self.now []).versions ∷ codes "rows"
            ∷ counts_words labels.now.views self.now.rows)) }
    {
        let later = self.versions().saturating_sub(1);
        write!(text, "updates {size} versions {later} rows")?;
        push_counts(text, labels.views(), self.rows())
    }

    /// The line of the fetches.
    fn push_fetches(&self, text: &mut String) -> Result<(), AllocError>
        ensures { OnOk result (string_bytes text.new ≡ string_bytes text.old
            ++ words (codes "reads" ∷ decimal self.now.reads ∷ codes "more" ∷ decimal self.now.more
            ∷ codes "expired" ∷ decimal self.now.expired ∷ [])) }
    {
        let reads = self.reads();
        let more = self.more();
        let expired = self.expired();
        write!(text, "reads {reads} more {more} expired {expired}")
    }

    /// Puts the summary of the made run that was counted behind the text: of its start number and its size, with these
    /// names, and with the number of all transactions of each source.
    pub fn push_summary(
        &self,
        text: &mut String,
        made: (u32, u32),
        labels: &Labels,
        transactions: &[u64],
    ) -> Result<(), NoMemory>
        ensures { OnOk result (string_bytes text.new ≡ string_bytes text.old
            ++ text_of (counted_lines made.0 made.1 labels.now
            (counts_from self.now transactions.now))) }
    {
        let (start, size) = made;
        writeln!(text, "make {start} {size}")?;
        self.push_updates(text, size, labels)?;
        text.push('\n')?;
        self.push_fetches(text)?;
        text.push_str("\nfinal")?;
        push_counts(text, labels.sources(), transactions)?;
        text.push('\n')?;
        Ok(())
    }
}
