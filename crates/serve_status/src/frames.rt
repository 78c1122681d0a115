//! How many commits the bytes of a journal's file tell, in whatever pieces these are read.

ghost use Rattle.std.specs.Prelude.{◌≡◌, ◌<◌, ◌^◌, ◌++◌, ◌∷◌, ℕ, List, length, fold};
ghost use Rattle.commit_file.specs.Files.{Contents, opened, all_of, IsShort};
ghost use Rattle.serve_status.specs.Frames.{commits_in};
ghost use Rattle.serve_status.specs.Frames as spec;

/// The byte of a gate behind which a commit stands.
const OPEN: u8 = 1;

/// The byte in a file of version 1 behind which commits of version 2 stand.
const MARK: u8 = 2;

/// The last byte of the header of a file of version 1.
const VERSION_ONE: u8 = 1;

/// Where in the header the version stands, at its end.
const VERSION_AT: u64 = 11;

/// How many bytes the length of a commit has, without the last one.
const LENGTH_LAST: u64 = 3;

/// Where in a file the bytes so far end.
#[derive(Clone, Copy, Debug, PartialEq, Eq)]
pub enum FilePlace {
    /// In the header, of which so many bytes were read.
    Header(u64),
    /// In front of a gate.
    Gate,
    /// In the length of a commit. So many of its bytes were read, which come to this.
    Length(u64, u64),
    /// In a commit, of which so many bytes are left.
    Commit(u64),
    /// Where no commit follows.
    Rest,
}

/// What the bytes so far tell.
#[derive(Clone, Copy, Debug, PartialEq, Eq)]
pub struct FileReading {
    place: FilePlace,
    /// Whether a mark may follow.
    marks: bool,
    commits: u64,
}

impl FileReading {
    /// Nothing was read yet.
    pub fn new() -> FileReading
        ensures { result ≡ spec.unread }
    {
        FileReading {
            place: FilePlace::Header(0),
            marks: false,
            commits: 0,
        }
    }

    /// How many commits were read to their ends.
    pub fn commits(self) -> u64
        ensures { result ≡ self.commits }
    {
        self.commits
    }

    /// What these bytes tell behind those so far.
    pub fn behind(self, bytes: &[u8]) -> FileReading
        ensures { result ≡ fold spec.with_byte self bytes.now }
    {
        let mut reading = self;
        for byte in bytes {
            reading = reading.with_byte(*byte);
        }
        reading
    }

    /// What one more byte tells.
    fn with_byte(self, byte: u8) -> FileReading
        ensures { result ≡ spec.with_byte self byte }
    {
        match self.place {
            FilePlace::Header(count) => self.in_header(count, byte),
            FilePlace::Gate => self.at_gate(byte),
            FilePlace::Length(count, length) => self.in_length(count, length, byte),
            FilePlace::Commit(left) => self.before(left.saturating_sub(1)),
            FilePlace::Rest => self,
        }
    }

    /// At another place.
    fn at(self, place: FilePlace) -> FileReading
        ensures { result ≡ spec.at place self }
    {
        FileReading {
            place,
            marks: self.marks,
            commits: self.commits,
        }
    }

    /// One more byte of the header, of which so many were read.
    fn in_header(self, count: u64, byte: u8) -> FileReading
        ensures { result ≡ spec.in_header count byte self }
    {
        if count < VERSION_AT {
            return self.at(FilePlace::Header(count + 1));
        }
        FileReading {
            place: FilePlace::Gate,
            marks: byte == VERSION_ONE,
            commits: self.commits,
        }
    }

    /// The byte of a gate, or a mark in its place.
    fn at_gate(self, byte: u8) -> FileReading
        ensures { result ≡ spec.at_gate byte self }
    {
        if byte == OPEN {
            return self.at(FilePlace::Length(0, 0));
        }
        if self.marks && byte == MARK {
            return self.unmarked();
        }
        self.at(FilePlace::Rest)
    }

    /// Behind the mark.
    fn unmarked(self) -> FileReading
        ensures { result ≡ spec.unmarked self }
    {
        FileReading {
            place: FilePlace::Gate,
            marks: false,
            commits: self.commits,
        }
    }

    /// One more byte of the length of a commit, of which so many were read.
    fn in_length(self, count: u64, length: u64, byte: u8) -> FileReading
        ensures { result ≡ spec.in_length count length byte self }
    {
        let length = length.saturating_mul(256).saturating_add(u64::from(byte));
        if count < LENGTH_LAST {
            return self.at(FilePlace::Length(count + 1, length));
        }
        self.before(length)
    }

    /// Before the last so many bytes of a commit. Behind the last one there is one more.
    fn before(self, left: u64) -> FileReading
        ensures { result ≡ spec.before left self }
    {
        if left > 0 {
            return self.at(FilePlace::Commit(left));
        }
        FileReading {
            place: FilePlace::Gate,
            marks: self.marks,
            commits: self.commits.saturating_add(1),
        }
    }
}

/// What holds of the commits that a file tells.
pub fn laws_of_files()
    // All commits of a file that was written are counted, whatever stands behind its closed gate.
    ensures { (c : Contents) (rest : List ℕ) → IsShort c → length (all_of c) < 2 ^ 64
        → commits_in (opened c ++ 0 ∷ rest) ≡ length (all_of c) }
{}
