// The two traits of the outside, and their faults.
ghost use Rattle.std.specs.Prelude.{◌≡◌, ◌≤◌, ◌<◌, ℕ, List, [], length, Option, OnOk, OnErr};
ghost use Rattle.pg_io.specs.Counts.{Rose, RoseBy};
ghost use Rattle.pg_io.specs.Told.{IsTold, IsTooLong};
ghost use Rattle.pg_io.specs.Written.{appended, AppendsPart};

use thiserror::Error;

/// Why a fetch was refused. This project's own.
#[derive(Clone, Copy, Debug, PartialEq, Eq, Error)]
pub enum RoomFault {
    /// The file is missing, is a folder or could not be read.
    #[error("the file could not be read")]
    Failed,
    /// The file is longer than the limit of the fetch; this many bytes of it were taken, which
    /// may be fewer than it has.
    #[error("the file is longer than its limit: {0} bytes were taken")]
    TooLong(u64),
    /// Memory ran out.
    #[error("out of memory")]
    NoMemory,
}

/// Why a put was refused. This project's own.
#[derive(Clone, Copy, Debug, PartialEq, Eq, Error)]
pub enum SinkFault {
    /// The piece was not written whole; a prefix of it may have been.
    #[error("the text could not be written")]
    Failed,
    /// Memory ran out, and nothing of the piece was written.
    #[error("out of memory")]
    NoMemory,
}

/// Where files come from. This project's own.
///
/// A room may tell the bytes of a name, always or never, and it counts the faults of each name and
/// the bytes that it has taken from its files. The counts never fall; one that stands at 2^64 - 1
/// stands still there and counts as risen.
pub trait Room {
    // the bytes of a name, where the room tells them
    ghost told: { Self → List ℕ → Option (List ℕ) };

    // how many faults there were of a name
    ghost faults: { Self → List ℕ → ℕ };

    // how many bytes were taken from files
    ghost taken: { Self → ℕ };

    /// Reads the file `name`, of at most `limit` bytes, into the empty vector `into`, on the
    /// vector's own allocator. After a refusal the vector is empty again. `Failed` comes only where
    /// the count of faults of this name rose, and `TooLong(n)` only where n bytes, more than the
    /// limit, were taken. No clause says when `NoMemory` comes.
    fn fetch(&mut self, name: &str, limit: u64, into: &mut Vec<u8>) -> Result<(), RoomFault>
        requires { into.old.items ≡ [] }

        // What is told, and the counts.
        ensures told { (n : List ℕ) → told self.new n ≡ told self.old n }
        ensures faults_stay { (n : List ℕ) → faults self.old n ≤ faults self.new n }
        ensures taken_stays { taken self.old ≤ taken self.new }

        // What is fetched.
        ensures within { OnOk result (length into.new.items ≤ limit) }
        ensures bytes { OnOk result (IsTold (told self.old name.now) into.new.items) }
        ensures empty { OnErr result (into.new.items ≡ []) }

        // When each fault comes.
        ensures failed { result ≡ Err RoomFault.Failed →
            Rose (faults self.old name.now) (faults self.new name.now) }
        ensures too_long { (n : ℕ) → result ≡ Err (RoomFault.TooLong n) →
            (limit < n) × RoseBy n (taken self.old) (taken self.new)
            × IsTooLong (told self.old name.now) limit };
}

/// Where text goes. This project's own.
///
/// A sink may tell the bytes that were written, always or never, and it counts its faults. The
/// count never falls; standing at 2^64 - 1 it stands still and counts as risen.
pub trait Sink {
    // the bytes written so far, where the sink tells them
    ghost written: { Self → Option (List ℕ) };

    // how many faults there were
    ghost faults: { Self → ℕ };

    /// Writes the piece after what was written. Whether the sink tells its bytes stays as it was.
    /// `Failed` comes only where the count of faults rose, and then a prefix of the piece was
    /// written. No clause says when `NoMemory` comes; nothing was written then.
    fn put(&mut self, piece: &[u8]) -> Result<(), SinkFault>
        ensures faults_stay { faults self.old ≤ faults self.new }
        ensures ok { OnOk result (written self.new ≡ appended (written self.old) piece.now) }
        ensures part { result ≡ Err SinkFault.Failed →
            AppendsPart (written self.old) (written self.new) piece.now }
        ensures failed { result ≡ Err SinkFault.Failed → Rose (faults self.old) (faults self.new) }
        ensures no_memory { result ≡ Err SinkFault.NoMemory → written self.new ≡ written self.old };
}
