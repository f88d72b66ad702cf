// The list on standard input, read in parts.
ghost use Rattle.std.specs.Prelude.{◌≡◌};
ghost use mathlib.Core.List.{foldl};
ghost use Rattle.recorded_calls.specs.Replay.{byte_taken};
ghost use Rattle.replay.specs.Input.{TextReplayed, Reported};

use printing::Text;
use recorded::machine::Machine;
use recorded::reader::Reader;
use recorded_calls::act::Reading;
use recorded_cases::lines::Replay;
use recorded_cases::state::State;

const STDIN: i32 = 0;

// The bytes of a part, one after the other.
fn take_part(reading: &mut Reading, part: &[u8])
    ensures { reading.new ≡ foldl byte_taken reading.old part.now }
{
    for byte in part {
        reading.take_byte(*byte);
    }
}

// All of the input, whatever it is: no contract can say which bytes a read gives. No input uses up so many turns.
fn take_all(reading: &mut Reading)
    ensures { TextReplayed reading.old reading.new.replay.state }
{
    let mut text = io::large_buffer();
    for _turn in 0..u64::MAX {
        let n = io::read_full(STDIN, &mut text);
        if n == 0 {
            break;
        }
        take_part(reading, &text[..n]);
    }
    reading.replay.state.text_end(&reading.reader);
}

// What is to be printed of the input.
pub fn verdict() -> Text<128>
    ensures { Reported result }
{
    let mut reading = Reading {
        reader: Reader::new(),
        replay: Replay {
            state: State::new(),
            machine: Machine::new(),
            due: Machine::new(),
            bytes: [0; 8],
        },
    };
    take_all(&mut reading);
    reading.replay.state.verdict()
}
