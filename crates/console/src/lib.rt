// io.rs: the serial console, beside the lent queue and output record. Its three marks are changed in crates/marks.
#![tactic(auto, unfolding(definition::specs::Io::read_port, definition::specs::Io::read_data, definition::specs::Io::write_port, definition::specs::Io::write_data, definition::specs::Io::input_ready, definition::specs::Io::output_full, definition::specs::Io::around, definition::specs::Io::put_bytes, definition::specs::Io::drained))]

ghost use Rattle.std.specs.Prelude.{◌≡◌, List, ℕ, ◌+◌, ◌<◌, ◌≤◌, length, set};
ghost use Rattle.definition.specs.Io.{around, read_port, read_data, write_port, output_full, put_bytes, drained};
ghost use Rattle.console.specs.Meaning.{console_of, Sends};

use definition::Marks;

const STATUS_PORT: u32 = 110;

const DATA_PORT: u32 = 111;

// The console without its bytes: C lends those anew with each call, and the row keeps places and counts.
#[derive(Clone, Copy)]
pub struct ConsoleState {
    pub marks: Marks,
    pub start: usize,
    pub count: usize,
    pub written: usize,
}

// A place in the queue, "wrapping at the queue's end".
pub fn around(size: usize, n: usize) -> usize
    ensures { result ≡ around size n }
{
    if n < size { n } else { n - size }
}

// SerialConsole::read of port 111: "the oldest byte, or 0". "a read moves the start on by one, wrapping too"
pub fn read_data(queue: &[u8], k: &mut ConsoleState) -> u8
    requires { k.old.start < length queue.now }
    ensures { (output : List ℕ) → (result, console_of k.new queue.now output) ≡ read_data (console_of k.old queue.now output) }
{
    if k.count == 0 {
        return 0;
    }
    let byte = queue[k.start];
    k.start = around(queue.len(), k.start + 1);
    k.count -= 1;
    byte
}

// SerialConsole::read. "Other ports read 0"
pub fn read_port(queue: &[u8], k: &mut ConsoleState, port: u32) -> u8
    requires { k.old.start < length queue.now }
    ensures { (output : List ℕ) → (result, console_of k.new queue.now output) ≡ read_port port (console_of k.old queue.now output) }
{
    match port {
        STATUS_PORT => marks::status_read(&mut k.marks, 0 < k.count),
        DATA_PORT => read_data(queue, k),
        _ => 0,
    }
}

// SerialConsole::write. "out keeps the low 8 bits on port 111", "Other ports [...] swallow writes." The byte, if one goes out.
pub fn write_port(k: &mut ConsoleState, port: u32, w: i64) -> Option<u8>
    requires { k.old.written ≤ 65536 }
    ensures { Sends k.old port w k.new result }
{
    match port {
        STATUS_PORT => {
            marks::write_control(&mut k.marks, 0 < k.count, w);
            None
        }
        DATA_PORT => {
            k.written += 1;
            Some(word::low_byte(w))
        }
        _ => None,
    }
}

// "the step would write a byte past the output record", of this size
pub fn output_full(k: &ConsoleState, port: u32, size: usize) -> bool
    ensures { (queue output : List ℕ) → length output ≡ size → result ≡ output_full port (console_of k.now queue output) }
{
    port == DATA_PORT && size <= k.written
}

// The byte that a write sends, behind those already written.
pub fn put_byte(output: &mut [u8], at: usize, byte: u8)
    requires { at < length output.old }
    ensures { output.new ≡ set output.old at byte }
{
    output[at] = byte;
}

// Delivered bytes, one after another from this place of the queue on: byte by byte, since nothing here bounds how often they wrap.
pub fn put_bytes(queue: &mut [u8], at: usize, bytes: &[u8])
    requires { at < length queue.old }
    ensures { queue.new ≡ put_bytes at bytes.now queue.old }
{
    let mut p = at;
    for &byte in bytes {
        queue[p] = byte;
        p = around(queue.len(), p + 1);
    }
}

// "Drain copies the counted bytes to the front of its buffer, leaves the rest of it"
pub fn drain_to(buffer: &mut [u8], output: &[u8], n: usize)
    requires { (n ≤ length output.now) × (n ≤ length buffer.old) }
    ensures { buffer.new ≡ drained n output.now buffer.old }
{
    word::copy::copy(&mut buffer[..n], &output[..n]);
}
