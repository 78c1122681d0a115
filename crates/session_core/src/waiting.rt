//! The rest of a line that was to wait.

ghost use Rattle.std.specs.Prelude.{◌≡◌, None, Some, Err};
ghost use Rattle.session_core.specs.Holding.{Follows};
ghost use Rattle.session_core.specs.LinePrograms as programs;
ghost use Rattle.session_core.specs.Verbs.{Plays};
ghost use Rattle.session_core.specs.Sessions.{IsAccounted, TellsFault, AnswersAgain};

use crate::acting::sync_turn;
use crate::error::SessionError;
use crate::line::Line;
use crate::session::Session;
use crate::turn::Turn;
use docc_prepare::Backend;
use std::alloc::Global;
use watch_reruns::{One, Rerunner};

impl Session {
    /// Brings all watches up to date, as `sync` does: the rest of a line that was answered [`Turn::WaitWanted`], once there is a
    /// commit to tell of. After an error the session is over.
    pub fn waited<B: Backend>(
        &mut self,
        alloc: Global,
        backend: &mut B,
    ) -> Result<Turn, SessionError>
        requires follows { Follows (B.known backend.old) self.old }
        ensures plays { self.old.over ≡ None → Plays B.known B.goes backend.old
            (programs.sync self.old) result (λ turn. (self.new, turn)) backend.new }

        // Its answer is explained by the journal, adds no commit of the client's, and no denial.
        ensures accounted { IsAccounted (B.known backend.old) (B.known backend.new) self.old
            Line.Sync result self.new }

        // The next line may follow.
        ensures follows { Follows (B.known backend.new) self.new }

        // After an error it is over, and then it answers that error again.
        ensures over { (e : SessionError) → result ≡ Err e → self.new.over ≡ Some e }
        ensures again { (e : SessionError) → self.old.over ≡ Some e →
            AnswersAgain e result backend.old backend.new self.old self.new }

        // It tells a fault of the store where that has counted one.
        ensures told { self.old.over ≡ None →
            TellsFault (B.known backend.old) (B.known backend.new) result }

        // The backend stays where it stands.
        ensures home { B.home backend.new ≡ B.home backend.old }
    {
        self.waited_by(alloc, backend, &One)
    }

    /// The same, where the reruns are made by others.
    pub fn waited_by<B: Backend, R: Rerunner>(
        &mut self,
        alloc: Global,
        backend: &mut B,
        reruns: &R,
    ) -> Result<Turn, SessionError>
        requires follows { Follows (B.known backend.old) self.old }
        ensures plays { self.old.over ≡ None → Plays B.known B.goes backend.old
            (programs.sync self.old) result (λ turn. (self.new, turn)) backend.new }

        // Its answer is explained by the journal, adds no commit of the client's, and no denial.
        ensures accounted { IsAccounted (B.known backend.old) (B.known backend.new) self.old
            Line.Sync result self.new }

        // The next line may follow.
        ensures follows { Follows (B.known backend.new) self.new }

        // After an error it is over, and then it answers that error again.
        ensures over { (e : SessionError) → result ≡ Err e → self.new.over ≡ Some e }
        ensures again { (e : SessionError) → self.old.over ≡ Some e →
            AnswersAgain e result backend.old backend.new self.old self.new }

        // It tells a fault of the store where that has counted one.
        ensures told { self.old.over ≡ None →
            TellsFault (B.known backend.old) (B.known backend.new) result }

        // The backend stays where it stands.
        ensures home { B.home backend.new ≡ B.home backend.old }
    {
        if let Some(error) = self.over {
            return Err(error);
        }
        let turn = sync_turn(alloc, backend, reruns, self);
        if let Err(error) = &turn {
            self.over = Some(*error);
        }
        turn
    }
}
