//! A rank's requests, with their readers and writers.

ghost use Rattle.std.specs.Prelude.{◌≡◌, ◌++◌, true, length, Some, None, IfOk, OnOk, IsErrOf};
ghost use Rattle.byte_formats.specs.declared.cursor.Unspelled.TheVariants.{Bad};
ghost use Rattle.byte_formats.specs.Formats.{ascends, both};
ghost use Rattle.rank_image.specs.Messages.{message};
ghost use Rattle.rank_image.specs.declared.requests.Request.TheVariants.{Complete, Waiting, Matched};
ghost use Rattle.rank_image.specs.Requests.{receive, receive_of, request, number_of, is_before, request_list, requests, sorted, with_request};
ghost use Rattle.rank_image.specs.RequestLaws.{request_is};

use crate::messages::{Context, MessageFormat};
use crate::order::{Order, ascend_in};
use am_base::Bytes;
use byte_formats::{
    Cursor, Spelling, Unspelled, put_i32, put_u8, put_u32, put_u64, take_i32, take_many, take_u8,
    take_u32, take_u64,
};
use mpi_types::{CompleteKind, CompleteRequest, MatchedPair, Posted, Sequence};
use std::alloc::{AllocError, Global};

/// A live request.
#[derive(Drop)]
pub enum Request {
    /// A complete one that stands in no book.
    Complete(CompleteRequest),
    /// A receive that waits for a message.
    Waiting(Posted),
    /// A receive that has its message.
    Matched(MatchedPair),
}

impl Request {
    pub fn number(&self) -> u32
        ensures { result ≡ number_of self.now }
    {
        match self {
            Request::Complete(complete) => complete.number,
            Request::Waiting(receive) => receive.request,
            Request::Matched(pair) => pair.receive.request,
        }
    }
}

/// A rank's requests: the next one's number, and the live ones, each list ascending by number.
#[derive(Drop)]
pub struct Requests {
    pub next: u32,
    pub complete: Sequence<CompleteRequest>,
    pub posted: Sequence<Posted>,
    pub matched: Sequence<MatchedPair>,
}

/// Takes a receive, with its source and its tag behind it, and gives it the number.
#[tactic(auto, unfolding(crate::specs::Requests::receive))]
fn take_receive(alloc: Global, cursor: &mut Cursor<'_>, request: u32) -> Result<Posted, Unspelled>
    ensures ok { IfOk result (λ x. receive.read cursor.old.rest.now ≡ Some (receive_of x, cursor.new.rest.now)) }
    ensures number { IfOk result (λ x. x.request ≡ request) }
    ensures bad { IsErrOf result Bad → receive.read cursor.old.rest.now ≡ None }
{
    let buffer = take_u64(cursor)?;
    let room = take_u32(cursor)?;
    let ctx = Context::take(alloc, cursor)?;
    let source = match take_i32(cursor) {
        Ok(source) => source,
        Err(error) => {
            drop(ctx);
            return Err(error);
        }
    };
    match take_i32(cursor) {
        Ok(tag) => Ok(Posted {
            request,
            ctx,
            source,
            tag,
            room,
            buffer,
        }),
        Err(error) => {
            drop(ctx);
            Err(error)
        }
    }
}

/// Appends a receive without its number.
#[tactic(auto, unfolding(crate::specs::Requests::receive))]
fn put_receive(out: &mut Bytes, value: &Posted) -> Result<(), AllocError>
    requires { receive.fits (receive_of value.now) ≡ true }
    ensures { OnOk result (out.new ≡ out.old ++ receive.spell (receive_of value.now)) }
{
    put_u64(out, value.buffer)?;
    put_u32(out, value.room)?;
    Context::put(out, &value.ctx)?;
    put_i32(out, value.source)?;
    put_i32(out, value.tag)
}

/// Takes a pair of a receive and its message.
fn take_pair(alloc: Global, cursor: &mut Cursor<'_>, request: u32) -> Result<MatchedPair, Unspelled>
    ensures ok { IfOk result (λ x. (both receive message).read cursor.old.rest.now ≡ Some ((receive_of x.receive, x.message), cursor.new.rest.now)) }
    ensures number { IfOk result (λ x. x.receive.request ≡ request) }
    ensures bad { IsErrOf result Bad → (both receive message).read cursor.old.rest.now ≡ None }
{
    let receive = take_receive(alloc, cursor, request)?;
    match MessageFormat::take(alloc, cursor) {
        Ok(message) => Ok(MatchedPair { receive, message }),
        Err(error) => {
            drop(receive);
            Err(error)
        }
    }
}

/// Live requests.
pub struct RequestFormat;

impl Spelling for RequestFormat {
    type Value = Request;

    ghost format = { request };

    #[tactic(auto, unfolding(crate::specs::Requests::request))]
    fn take(alloc: Global, cursor: &mut Cursor<'_>) -> Result<Request, Unspelled> {
        let number = take_u32(cursor)?;
        let tag = take_u8(cursor)?;
        if tag == 0 {
            let kind = CompleteKind::Send;
            return Ok(Request::Complete(CompleteRequest { number, kind }));
        }
        if tag == 1 {
            let receive = take_receive(alloc, cursor, number)?;
            return Ok(Request::Waiting(receive));
        }
        if tag == 2 {
            let pair = take_pair(alloc, cursor, number)?;
            return Ok(Request::Matched(pair));
        }
        if tag == 3 {
            let kind = CompleteKind::NoProcess;
            return Ok(Request::Complete(CompleteRequest { number, kind }));
        }
        Err(Unspelled::Bad)
    }

    fn put(out: &mut Bytes, value: &Request) -> Result<(), AllocError> {
        match value {
            Request::Complete(complete) => put_complete(out, complete),
            Request::Waiting(receive) => put_waiting(out, receive),
            Request::Matched(pair) => put_matched(out, pair),
        }
    }

    ghost is_format = { request_is };
}

/// Appends a complete request.
#[tactic(auto, unfolding(crate::specs::Requests::request))]
pub fn put_complete(out: &mut Bytes, value: &CompleteRequest) -> Result<(), AllocError>
    ensures { OnOk result (out.new ≡ out.old ++ request.spell (Complete value.now)) }
{
    put_u32(out, value.number)?;
    match value.kind {
        CompleteKind::Send => put_u8(out, 0),
        CompleteKind::NoProcess => put_u8(out, 3),
    }
}

/// Appends the request of a receive that waits.
#[tactic(auto, unfolding(crate::specs::Requests::request))]
pub fn put_waiting(out: &mut Bytes, value: &Posted) -> Result<(), AllocError>
    requires { request.fits (Waiting value.now) ≡ true }
    ensures { OnOk result (out.new ≡ out.old ++ request.spell (Waiting value.now)) }
{
    put_u32(out, value.request)?;
    put_u8(out, 1)?;
    put_receive(out, value)
}

/// Appends the request of a receive that has its message.
#[tactic(auto, unfolding(crate::specs::Requests::request))]
pub fn put_matched(out: &mut Bytes, value: &MatchedPair) -> Result<(), AllocError>
    requires { request.fits (Matched value.now) ≡ true }
    ensures { OnOk result (out.new ≡ out.old ++ request.spell (Matched value.now)) }
{
    put_u32(out, value.receive.request)?;
    put_u8(out, 2)?;
    put_receive(out, &value.receive)?;
    MessageFormat::put(out, &value.message)
}

/// Requests by number.
pub struct ByNumber;

impl Order for ByNumber {
    type Value = Request;

    ghost test = { is_before };

    fn is_before(a: &Request, b: &Request) -> bool {
        a.number() < b.number()
    }
}

/// Takes live requests, which ascend by number.
#[tactic(auto, unfolding(crate::specs::Requests::request_list))]
fn take_list(alloc: Global, cursor: &mut Cursor<'_>) -> Result<Vec<Request>, Unspelled>
    ensures ok { IfOk result (λ x. request_list.read cursor.old.rest.now ≡ Some (x.items, cursor.new.rest.now)) }
    ensures bad { IsErrOf result Bad → request_list.read cursor.old.rest.now ≡ None }
{
    let count = take_u32(cursor)?;
    if count > 65536 {
        return Err(Unspelled::Bad);
    }
    let found = take_many::<RequestFormat>(alloc, cursor, count as usize)?;
    if ascend_in::<ByNumber>(found.as_slice()) {
        return Ok(found);
    }
    drop(found);
    Err(Unspelled::Bad)
}

/// Takes a rank's requests.
#[tactic(auto, unfolding(crate::specs::Requests::requests))]
pub fn take_requests(alloc: Global, cursor: &mut Cursor<'_>) -> Result<Requests, Unspelled>
    ensures ok { IfOk result (λ x. requests.read cursor.old.rest.now ≡ Some (x, cursor.new.rest.now)) }
    ensures bad { IsErrOf result Bad → requests.read cursor.old.rest.now ≡ None }
{
    let next = take_u32(cursor)?;
    let found = take_list(alloc, cursor)?;
    Ok(sorted_out(alloc, next, found)?)
}

/// The requests of the list, each in the list of its kind.
fn sorted_out(alloc: Global, next: u32, found: Vec<Request>) -> Result<Requests, AllocError>
    ensures { IfOk result (λ r. r ≡ sorted next found.items) }
{
    let mut left = found;
    left.as_mut_slice().reverse();
    let mut requests = Requests {
        next,
        complete: Sequence::new(alloc),
        posted: Sequence::new(alloc),
        matched: Sequence::new(alloc),
    };
    while let Some(request) = left.pop() {
        match requests.put(request) {
            Ok(()) => {}
            Err(error) => {
                drop(requests);
                drop(left);
                return Err(error);
            }
        }
    }
    drop(left);
    Ok(requests)
}

impl Requests {
    /// Puts a request behind those of its kind. After an error the requests are only to be dropped.
    fn put(&mut self, request: Request) -> Result<(), AllocError>
        ensures { OnOk result (self.new ≡ with_request self.old request) }
    {
        match request {
            Request::Complete(complete) => self.complete.push(complete),
            Request::Waiting(receive) => self.posted.push(receive),
            Request::Matched(pair) => self.matched.push(pair),
        }
    }
}
