// What a replay found, in one line of text.
ghost use Rattle.std.specs.Prelude.{◌≡◌, ◌≤◌, length};
ghost use Rattle.recorded_cases.specs.Verdict.{fault_text, difference_text, numbers_text, verdict_text};

use crate::state::State;
use printing::Text;
use recorded::compare::Fault;

// The fault in words, the line's end with them.
fn words(fault: Fault) -> &'static [u8]
    ensures value { result.now ≡ fault_text fault }
    ensures short { length result.now ≤ 49 }
{
    match fault {
        Fault::Text => b"the line is not five numbers\n",
        Fault::Order => b"a line of this kind is not due\n",
        Fault::Number => b"a number is out of range\n",
        Fault::Cases => b"the case's number or the count of cases is wrong\n",
        Fault::End => b"the list does not end with its last line\n",
        Fault::Refusal => b"the refusal differs\n",
        Fault::Place => b"the refusal's place differs\n",
        Fault::Stop => b"the stop differs\n",
        Fault::Detail => b"the detail differs\n",
        Fault::Count => b"the count of steps or bytes differs\n",
        Fault::Empty => b"the count of empty reads differs\n",
        Fault::Row => b"the row differs\n",
        Fault::Cells => b"the cells differ\n",
        Fault::Queue => b"the queue differs\n",
        Fault::Output => b"the output record differs\n",
        Fault::Buffer => b"the drain buffer differs\n",
    }
}

impl State {
    #[tactic(auto, using(printing::proofs::Laws::texts))]
    fn difference(&self, fault: Fault) -> Text<128>
        ensures { result ≡ difference_text self.now fault }
    {
        let mut text = Text::new();
        text.put(b"case ");
        text.put_decimal(self.cases);
        text.put(b", line ");
        text.put_decimal(self.lines);
        text.put(b": ");
        text.put(words(fault));
        text
    }

    #[tactic(auto, using(printing::proofs::Laws::texts))]
    fn numbers(&self) -> Text<128>
        ensures { result ≡ numbers_text self.now }
    {
        let mut text = Text::new();
        text.put_decimal(self.cases);
        text.put(b" cases, ");
        text.put_decimal(self.calls);
        text.put(b" calls, 0 differ\n");
        text
    }

    // How many cases and calls there were, or where the list is not met.
    pub fn verdict(&self) -> Text<128>
        ensures { result ≡ verdict_text self.now }
    {
        match self.fault {
            Some(fault) => self.difference(fault),
            None => self.numbers(),
        }
    }
}
