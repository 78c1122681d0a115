//! A session, line by line.

ghost use Rattle.std.specs.Prelude.{◌≡◌, ◌≤◌, ◌+◌, List, length, None, Some, Ok, Err};
ghost use Rattle.session_text.specs.declared.reply.Reply.{Reply};
ghost use Rattle.client_watches.specs.Watching.{none_yet};
ghost use Rattle.session_core.specs.Lines.{line_of};
ghost use Rattle.session_core.specs.Holding.{Follows};
ghost use Rattle.session_core.specs.Explained.{IsExplained};
ghost use Rattle.session_core.specs.LinePrograms as programs;
ghost use Rattle.session_core.specs.Verbs.{Plays};
ghost use Rattle.session_core.specs.Sessions.{OwnGrows, CountsDenied, CountsKnown, TellsFault, HasQuit, AnswersAgain};

use crate::acting::turn;
use crate::error::SessionError;
use crate::session::Session;
use crate::turn::Turn;
use client_watches::Watching;
use dio_core::LONGEST_LINE;
use docc_prepare::Backend;
use std::alloc::Global;
use watch_reruns::{One, Rerunner};

impl Session {
    /// The session of a client that has no commit, where so many commits are seen.
    pub fn new(alloc: Global, client: u32, at: u64) -> Session
        ensures { result ≡ record {
          client = client;
          seq = 1;
          at = at;
          attempt = None;
          watching = none_yet at;
          over = None;
        } }
    {
        Session {
            client,
            seq: 1,
            at,
            attempt: None,
            watching: Watching::new(alloc, at),
            over: None,
        }
    }

    /// Does a line. After an error the session is over.
    pub fn line<B: Backend>(
        &mut self,
        alloc: Global,
        backend: &mut B,
        bytes: &[u8],
    ) -> Result<Turn, SessionError>
        requires follows { Follows (B.known backend.old) self.old }
        requires short { length bytes.now ≤ LONGEST_LINE }

        // It performs the program of the line: that ends with the session after it, and with what it is answered.
        ensures plays { self.old.over ≡ None → Plays B.known B.goes backend.old
            (programs.line_over (B.known backend.old) self.old (line_of bytes.now)) result
            (λ turn. (self.new, turn)) backend.new }

        // Its answer is explained by the journal, where the backend tells that, whatever was shown before.
        ensures explained { IsExplained (B.known backend.old) (B.known backend.new) self.old
            (line_of bytes.now) result self.new }

        // The client's commits are those before, and the one that is answered. After an error it owns no more.
        ensures owns { OwnGrows (B.known backend.old) (B.known backend.new) result }

        // Each denied commit is answered so, and is one of the denials that the backend knows of. After an error none was denied.
        ensures denied { CountsDenied (B.known backend.old) (B.known backend.new) result }
        ensures knows { CountsKnown (B.known backend.old) (B.known backend.new) result }

        // The next line may follow.
        ensures follows { Follows (B.known backend.new) self.new }

        // After an error it is over, and then it answers that error again.
        ensures over { (e : SessionError) → result ≡ Err e → self.new.over ≡ Some e }
        ensures again { (e : SessionError) → self.old.over ≡ Some e →
            AnswersAgain e result backend.old backend.new self.old self.new }

        // It tells a fault of the store where that has counted one.
        ensures told { self.old.over ≡ None →
            TellsFault (B.known backend.old) (B.known backend.new) result }

        // Only `quit` ends the session, which keeps all but its open attempt.
        ensures quit { (replies : List Reply) → result ≡ Ok (Turn.Ended replies) →
            HasQuit (line_of bytes.now) replies backend.old backend.new self.old self.new }

        // The backend stays where it stands.
        ensures home { B.home backend.new ≡ B.home backend.old }
    {
        self.line_by(alloc, backend, &One, bytes)
    }

    /// The same, where reruns of watches are made by others.
    pub fn line_by<B: Backend, R: Rerunner>(
        &mut self,
        alloc: Global,
        backend: &mut B,
        reruns: &R,
        bytes: &[u8],
    ) -> Result<Turn, SessionError>
        requires follows { Follows (B.known backend.old) self.old }
        requires short { length bytes.now ≤ LONGEST_LINE }

        // It performs the program of the line: that ends with the session after it, and with what it is answered.
        ensures plays { self.old.over ≡ None → Plays B.known B.goes backend.old
            (programs.line_over (B.known backend.old) self.old (line_of bytes.now)) result
            (λ turn. (self.new, turn)) backend.new }

        // Its answer is explained by the journal, where the backend tells that, whatever was shown before.
        ensures explained { IsExplained (B.known backend.old) (B.known backend.new) self.old
            (line_of bytes.now) result self.new }

        // The client's commits are those before, and the one that is answered. After an error it owns no more.
        ensures owns { OwnGrows (B.known backend.old) (B.known backend.new) result }

        // Each denied commit is answered so, and is one of the denials that the backend knows of. After an error none was denied.
        ensures denied { CountsDenied (B.known backend.old) (B.known backend.new) result }
        ensures knows { CountsKnown (B.known backend.old) (B.known backend.new) result }

        // The next line may follow.
        ensures follows { Follows (B.known backend.new) self.new }

        // After an error it is over, and then it answers that error again.
        ensures over { (e : SessionError) → result ≡ Err e → self.new.over ≡ Some e }
        ensures again { (e : SessionError) → self.old.over ≡ Some e →
            AnswersAgain e result backend.old backend.new self.old self.new }

        // It tells a fault of the store where that has counted one.
        ensures told { self.old.over ≡ None →
            TellsFault (B.known backend.old) (B.known backend.new) result }

        // Only `quit` ends the session, which keeps all but its open attempt.
        ensures quit { (replies : List Reply) → result ≡ Ok (Turn.Ended replies) →
            HasQuit (line_of bytes.now) replies backend.old backend.new self.old self.new }

        // The backend stays where it stands.
        ensures home { B.home backend.new ≡ B.home backend.old }
    {
        if let Some(error) = self.over {
            return Err(error);
        }
        let turn = turn(alloc, backend, reruns, self, bytes);
        if let Err(error) = &turn {
            self.over = Some(*error);
        }
        turn
    }
}
