//! Connections: a client's session, its calls, and the replies to them.
ghost use Rattle.std.specs.Prelude.{◌≡◌, ◌≢◌, OnErr, OnOk, IfOk, IsErrOf, MatchOption, Some, None};
ghost use Rattle.proto.specs.Turns.{call_of};
ghost use Rattle.world.specs.Connections.{past_faults};
ghost use Rattle.world.specs.Lawful.{HasOpen};
ghost use Rattle.world.specs.Transcripts.{calls_shown};

use crate::{CallTranscript, ConnectionTranscript, SceneFault};
use proto::{ProtoFault, Session, Step};
use std::alloc::{AllocError, Global};
use std::marker::Model;
use std::mem;
use table::{Call, Reply};

/// Where the open call of a connection stands.
#[derive(Drop)]
pub enum Stage {
    /// No call is open.
    Idle,
    /// It was begun, and not yet worked.
    Begun,
    /// It is with the server.
    Asked,
    /// Its reply waits for the connection.
    Replied(Reply),
}

/// One client's connection.
#[derive(Drop)]
pub struct Connection {
    home: usize,
    session: Session,
    calls: Vec<Call>,
    replies: Vec<Reply>,
    stage: Stage,
}

impl Model for Connection {
    ghost use Rattle.world.specs.Connections.{Connection};
    ghost use Rattle.world.specs.Lawful.{IsLawful};

    ghost Value = { Connection };

    ghost view = { λ k. record {
      home = k.home;
      session = k.session;
      calls = k.calls.items;
      replies = k.replies.items;
      stage = k.stage;
    } };

    ghost invariant = { λ k. IsLawful k.stage k.calls.items k.replies.items k.session.asked };
}

impl Connection {
    ghost use Rattle.std.specs.Prelude.{◌≡◌, OnOk, IfOk, IfErr, IfSome, MatchOption};
    ghost use Rattle.std.specs.Option.{option_copied};
    ghost use Rattle.node.specs.Lawful.{IsCall};
    ghost use Rattle.world.specs.declared.connections.Stage.TheVariants.{Begun};
    ghost use Rattle.world.specs.Connections.{fresh, came, begun, open_call, to_work, asked, may_have, replied, handed};
    ghost use Rattle.world.specs.Quiet.{waits};
    ghost use Rattle.world.specs.Waiting.{is_idle, waiting_reply};
    ghost use Rattle.world.specs.Transcripts.{connection_shown};

    /// A connection at this server. It allocates nothing.
    pub fn new(alloc: Global, home: usize) -> Connection
        ensures { result ≡ fresh home }
    {
        Connection {
            home,
            session: Session::new(alloc),
            calls: Vec::new(alloc),
            replies: Vec::new(alloc),
            stage: Stage::Idle,
        }
    }

    /// Bytes come. At a closed session they have no effect.
    pub fn come(&mut self, bytes: &[u8]) -> Result<(), SceneFault>
        ensures ok { OnOk result (self.new ≡ came bytes.now self.old) }
        ensures only_memory { IfErr result (λ fault. fault ≡ SceneFault.Memory) }
    {
        match self.session.feed(bytes) {
            Ok(()) | Err(ProtoFault::Closed) => Ok(()),
            Err(ProtoFault::Memory) => Err(SceneFault::Memory),
        }
    }

    /// If no call is open, the next one begins.
    pub fn begin(&mut self) -> Result<(), SceneFault>
        ensures ok { OnOk result (self.new ≡ begun self.old.stage self.old) }
        ensures only_memory { IfErr result (λ fault. fault ≡ SceneFault.Memory) }
    {
        if !self.is_idle() {
            return Ok(());
        }
        self.calls.reserve(1)?;
        match next_call(&mut self.session) {
            Ok(Some(call)) => {
                self.calls.push(call)?;
                enter(&mut self.stage, Stage::Begun);
                Ok(())
            }
            Ok(None) => Ok(()),
            Err(fault) => Err(out_of_memory(fault)),
        }
    }

    /// The server that it is at.
    pub fn home(&self) -> usize
        ensures { result ≡ self.now.home }
    {
        self.home
    }

    /// The call that was begun and not yet worked: a clone of it, which shares its data.
    pub fn to_work(&self) -> Result<Option<Call>, AllocError>
        ensures call { IfOk result (λ call. call ≡ to_work self.now.stage self.now) }
        ensures fit { IfOk result (λ call. IfSome call IsCall) }
        ensures begun { IfOk result (λ call. IfSome call (λ _. self.now.stage ≡ Begun)) }
    {
        let Stage::Begun = self.stage else {
            return Ok(None);
        };
        match self.open_call() {
            Some(call) => Ok(Some(call.clone()?)),
            None => Ok(None),
        }
    }

    /// The call that was begun is with the server from now on.
    pub fn ask(&mut self)
        requires begun { self.old.stage ≡ Begun }
        ensures { self.new ≡ asked self.old }
    {
        enter(&mut self.stage, Stage::Asked);
    }

    /// Whether a call waits for its work, or a reply for its hand.
    pub fn waits(&self) -> bool
        ensures { result ≡ waits self.now.stage }
    {
        matches!(self.stage, Stage::Begun | Stage::Replied(_))
    }

    /// The server's reply to the call that is with it waits from now on. No other reply has an effect.
    pub fn replied(&mut self, reply: Reply)
        ensures { self.new ≡ replied self.old.stage reply self.old }
    {
        if matches!(self.stage, Stage::Asked) && self.may_have(&reply) {
            enter(&mut self.stage, Stage::Replied(reply));
        } else {
            drop(reply);
        }
    }

    // The open call is the first without a reply.
    fn open_call(&self) -> Option<&Call>
        ensures { option_copied result ≡ open_call self.now }
    {
        self.calls.get(self.replies.len())
    }

    // Whether the open call may have this reply: an item is shown exactly to a read.
    fn may_have(&self, reply: &Reply) -> bool
        ensures { result ≡ may_have (open_call self.now) reply.now }
    {
        match self.open_call() {
            Some(call) => call.op.is_update() != matches!(reply, Reply::Value(_)),
            None => false,
        }
    }

    /// The waiting reply reaches the connection.
    pub fn hand(&mut self) -> Result<(), SceneFault>
        ensures ok { OnOk result (self.new ≡ handed self.old.stage self.old) }
        ensures only_memory { IfErr result (λ fault. fault ≡ SceneFault.Memory) }
    {
        if let Stage::Replied(reply) = &self.stage {
            self.replies.reserve(1)?;
            self.session.answer(reply).map_err(out_of_memory)?;
            if let Stage::Replied(reply) = mem::replace(&mut self.stage, Stage::Idle) {
                self.replies.push(reply)?;
            }
        }
        Ok(())
    }

    /// The bytes that it was sent.
    pub fn sent(&self) -> &[u8]
        ensures { result.now ≡ self.now.session.out }
    {
        self.session.out()
    }

    /// Whether its session takes no further bytes.
    pub fn is_closed(&self) -> bool
        ensures { result ≡ self.now.session.closed }
    {
        self.session.is_closed()
    }

    /// Whether no call is open.
    pub fn is_idle(&self) -> bool
        ensures { result ≡ is_idle self.now.stage }
    {
        matches!(self.stage, Stage::Idle)
    }

    /// The reply that waits for the connection: a clone of it, which shares its data.
    pub fn waiting_reply(&self) -> Result<Option<Reply>, AllocError>
        ensures { IfOk result (λ reply. reply ≡ waiting_reply self.now.stage) }
    {
        match &self.stage {
            Stage::Replied(reply) => Ok(Some(reply.clone()?)),
            _ => Ok(None),
        }
    }

    /// What is shown of it.
    pub fn transcript(self, alloc: Global) -> Result<ConnectionTranscript, AllocError>
        ensures { IfOk result (λ t. t ≡ connection_shown self) }
    {
        let Connection {
            home,
            session,
            calls,
            replies,
            stage,
        } = self;
        drop(stage);
        match Vec::from_slice(alloc, session.out()) {
            Ok(sent) => {
                drop(session);
                let calls = call_transcripts(alloc, calls, replies)?;
                Ok(ConnectionTranscript { home, calls, sent })
            }
            Err(fault) => {
                drop(session);
                drop(calls);
                drop(replies);
                Err(fault)
            }
        }
    }
}

// The next stage. The one before is dropped by a call: an assignment drops it in place, which costs a proof far more.
fn enter(stage: &mut Stage, next: Stage)
    ensures { stage.new ≡ next }
{
    drop(mem::replace(stage, next));
}

// Why a session that isn't asked while it is closed refuses.
fn out_of_memory(fault: ProtoFault) -> SceneFault
    requires open { fault ≢ ProtoFault.Closed }
    ensures { result ≡ SceneFault.Memory }
{
    match fault {
        ProtoFault::Memory => SceneFault::Memory,
        ProtoFault::Closed => unreachable!(),
    }
}

// The next call after the faults that stand next, whose texts are written.
fn next_call(session: &mut Session) -> Result<Option<Call>, ProtoFault>
    requires idle { session.old.asked ≡ None }
    ensures call { IfOk result (λ call. call ≡ call_of (past_faults session.old).0) }
    ensures left { OnOk result (session.new ≡ (past_faults session.old).1) }
    ensures opens { IfOk result
        (λ call. MatchOption call (session.new.asked ≡ None) (λ c. HasOpen (Some c) session.new.asked)) }
    ensures only_memory { IsErrOf result ProtoFault.Closed → ⊥ }
    ensures err { OnErr result (session.new.asked ≡ None) }
{
    proto::faults_take_bytes();
    'passing: loop {
        match session.next()? {
            Step::Call(target, op) => return Ok(Some(Call { target, op })),
            Step::Emit => {}
            Step::Wait | Step::Close => return Ok(None),
        }
    }
}

// The calls, each with its reply or none.
fn call_transcripts(
    alloc: Global,
    calls: Vec<Call>,
    replies: Vec<Reply>,
) -> Result<Vec<CallTranscript>, AllocError>
    ensures { IfOk result (λ v. v.items ≡ calls_shown calls.items replies.items) }
{
    let mut shown = Vec::with_capacity(alloc, calls.len())?;
    let mut calls = calls.into_iter();
    let mut replies = replies.into_iter();
    while let Some(call) = calls.next() {
        shown.push(CallTranscript {
            target: call.target,
            op: call.op,
            reply: replies.next(),
        })?;
    }
    Ok(shown)
}
