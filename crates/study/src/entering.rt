ghost use Rattle.study.specs.Study.{Enters};

use crate::record::Record;
use crate::study::Study;
use base::{Labels, Refusal};

impl Study {
    // Writes a formula past the others.
    pub(crate) fn add(&mut self, text: &[u8], labels: &Labels) -> Result<usize, Refusal>
        ensures { Enters text.now labels.now self.old self.new result }
    {
        let number = formula::enter(&mut self.nodes, text, labels)?;
        self.records[number] = Record { judged: false };
        Ok(number)
    }
}
