//! A thread for each source and for each worker; the last worker is the thread that calls.
ghost use Rattle.std.specs.Prelude.{◌≡◌, ℕ, ◌<◌, ◌≤◌, ◌+◌, IfOk, OnOk, All, vec_len, slice_index_or, option_map};
ghost use Rattle.rv_trace.specs.Source.{bytes_say};
ghost use Rattle.rv_trace.specs.Dialects.{plain};
ghost use Rattle.rv_run.specs.Drives.{AreFedOf, AreServed};
ghost use Rattle.rv_run.specs.Feeds.{IsFedOf};

use crate::feeding::{Fed, Source, feed_source};
use crate::gate::Gate;
use crate::serving::{Served, serve};
use rv_slots::Carrier;
use rv_trace::Dialect;
use rv_verdict::VerdictCell;
use std::alloc::{AllocError, Global};
use std::io::Read;
use std::snapshot::Snapshot;
use std::sync::Wait;
use std::thread;
use std::thread::{Promise, PromisedHandle, Scope, Threads};

/// The promise of a feeder's thread: what it gives was read from this reader, in this dialect.
#[derive(Drop)]
struct FeedsFrom<R>(Snapshot<R>, Snapshot<Dialect>);

impl<R: Read> Promise<Fed> for FeedsFrom<R> {
    ghost kept_by = { λ p fed.
        IsFedOf (option_map (bytes_say p.1.value) (R.remaining p.0.value)) fed };
}

/// The promise of a worker's thread: its seat is of this carrier, and its note of this cell.
#[derive(Drop)]
struct ServesFor<C>(Snapshot<C>, Snapshot<VerdictCell>);

impl<C: Carrier> Promise<Served<C::Seat>> for ServesFor<C> {
    ghost kept_by = { λ p s. C.fits p.0.value s.seat × (s.note.cell ≡ p.1.value) };
}

/// What the threads of a run gave.
#[derive(Drop)]
pub struct Driven<S> {
    /// The answer of each source's feeder, by the source's number.
    pub fed: Vec<Fed>,
    /// The answer of each worker.
    pub served: Vec<Served<S>>,
}

/// What all threads of a run share.
#[derive(Drop)]
pub(crate) struct Shared<'s, RT, C, G> {
    /// The runtime.
    pub rt: &'s RT,
    /// Where memory is had.
    pub alloc: Global,
    /// Which rows the sources may have.
    pub dialect: Dialect,
    /// What carries the chunks.
    pub carrier: &'s C,
    /// The book, and how far each source is.
    pub gate: &'s G,
    /// Where the verdict is raised.
    pub cell: &'s VerdictCell,
}

/// Takes a seat of the carrier off the list.
fn take_seat<C: Carrier>(carrier: &C, seats: &mut Vec<C::Seat>) -> C::Seat
    requires some { 0 < vec_len seats.old }
    requires fits { All (λ s. C.fits carrier.now s) seats.old.items }
    ensures seat { C.fits carrier.now result }
    ensures fits { All (λ s. C.fits carrier.now s) seats.new.items }
    ensures len { vec_len seats.new + 1 ≡ vec_len seats.old }
{
    // Its contract alone speaks of the carrier.
    let _ = carrier;
    match seats.pop() {
        Some(seat) => seat,
        None => unreachable!(),
    }
}

impl<'s, RT: Threads + Wait + Sync, C: Carrier + Sync + 's, G: Gate + Sync + 's> Shared<
    's,
    RT,
    C,
    G,
> {
    /// Starts the thread of one source.
    fn start_feeder<E, R: Read + Send + Drop + 's>(
        &self,
        scope: &Scope<'s, E>,
        reader: R,
        number: u8,
        seat: C::Seat,
    ) -> Result<PromisedHandle<Fed, FeedsFrom<R>>, AllocError>
        requires source { number < 8 }
        requires seat { C.fits self.now.carrier.now seat }
        ensures { IfOk result (λ h.
            (h.promise.0.value ≡ reader) × (h.promise.1.value ≡ self.now.dialect)) }
    {
        let promise = FeedsFrom(Snapshot::of(&reader), Snapshot::of(&self.dialect));
        let (rt, alloc, carrier, gate) = (self.rt, self.alloc, self.carrier, self.gate);
        let source = Source {
            reader,
            number,
            dialect: self.dialect,
        };
        let child = scope.spawn_with(
            promise,
            move || -> Fed
                requires source { source.number < 8 }
                requires seat { C.fits carrier.now seat }
                ensures { IsFedOf
                    (option_map (bytes_say source.dialect) (R.remaining source.reader)) result }
            { feed_source(rt, alloc, source, carrier, seat, gate) },
        )?;
        Ok(child)
    }

    /// Starts the thread of one worker.
    fn start_worker<E>(
        &self,
        scope: &Scope<'s, E>,
        seat: C::Seat,
    ) -> Result<PromisedHandle<Served<C::Seat>, ServesFor<C>>, AllocError>
        requires { C.fits self.now.carrier.now seat }
        ensures { IfOk result (λ h.
            (h.promise.0.value ≡ self.now.carrier.now) × (h.promise.1.value ≡ self.now.cell.now)) }
    {
        let promise = ServesFor(Snapshot::of(self.carrier), Snapshot::of(self.cell));
        let (rt, alloc, carrier, gate, cell) = (
            self.rt,
            self.alloc,
            self.carrier,
            self.gate,
            self.cell,
        );
        let note = cell.note();
        let child = scope.spawn_with(
            promise,
            move || -> Served<C::Seat>
                requires seat { C.fits carrier.now seat }
                requires note { note.cell ≡ cell.now }
                ensures seat { C.fits carrier.entry.now result.seat }
                ensures note { result.note.cell ≡ cell.entry.now }
            { serve(rt, alloc, carrier, seat, gate, cell, note) },
        )?;
        Ok(child)
    }

    /// Starts a feeder for each reader, with a seat off the list.
    fn start_feeders<E, R: Read + Send + Drop + 's>(
        &self,
        scope: &Scope<'s, E>,
        readers: Vec<R>,
        seats: &mut Vec<C::Seat>,
    ) -> Result<Vec<PromisedHandle<Fed, FeedsFrom<R>>>, AllocError>
        requires few { vec_len readers ≤ 8 }
        requires room { vec_len readers ≤ vec_len seats.old }
        requires fits { All (λ s. C.fits self.now.carrier.now s) seats.old.items }
        ensures len { IfOk result (λ v. vec_len v ≡ vec_len readers) }
        ensures each { IfOk result (λ v. (i : ℕ) (h : _) (r : _) → i < vec_len readers
            → ((slice_index_or v.items i h).promise.0.value ≡ slice_index_or readers.items i r)
            × ((slice_index_or v.items i h).promise.1.value ≡ self.now.dialect)) }
        ensures seats { OnOk result (vec_len seats.new + vec_len readers ≡ vec_len seats.old) }
        ensures fits { All (λ s. C.fits self.now.carrier.now s) seats.new.items }
    {
        let mut children = Vec::new(self.alloc);
        let mut source = 0u8;
        for reader in readers {
            let seat = take_seat(self.carrier, seats);
            let child = self.start_feeder(scope, reader, source, seat)?;
            children.push(child)?;
            source += 1;
        }
        Ok(children)
    }

    /// Starts the workers, each with a seat off the list.
    fn start_workers<E>(
        &self,
        scope: &Scope<'s, E>,
        workers: u8,
        seats: &mut Vec<C::Seat>,
    ) -> Result<Vec<PromisedHandle<Served<C::Seat>, ServesFor<C>>>, AllocError>
        requires room { workers ≤ vec_len seats.old }
        requires fits { All (λ s. C.fits self.now.carrier.now s) seats.old.items }
        ensures len { IfOk result (λ v. vec_len v ≡ workers) }
        ensures each { IfOk result (λ v. (i : ℕ) (h : _) → i < workers
            → ((slice_index_or v.items i h).promise.0.value ≡ self.now.carrier.now)
            × ((slice_index_or v.items i h).promise.1.value ≡ self.now.cell.now)) }
        ensures seats { OnOk result (vec_len seats.new + workers ≡ vec_len seats.old) }
        ensures fits { All (λ s. C.fits self.now.carrier.now s) seats.new.items }
    {
        let mut children = Vec::new(self.alloc);
        for _worker in 0..workers {
            let seat = take_seat(self.carrier, seats);
            let child = self.start_worker(scope, seat)?;
            children.push(child)?;
        }
        Ok(children)
    }

    /// Serves as a worker in the thread that calls.
    fn serve_here(&self, seat: C::Seat) -> Served<C::Seat>
        requires { C.fits self.now.carrier.now seat }
        ensures seat { C.fits self.now.carrier.now result.seat }
        ensures note { result.note.cell ≡ self.now.cell.now }
    {
        let note = self.cell.note();
        serve(
            self.rt,
            self.alloc,
            self.carrier,
            seat,
            self.gate,
            self.cell,
            note,
        )
    }

    /// Starts all threads but for the last worker, which this thread is, and joins them.
    fn start_and_join<E, R: Read + Send + Drop + 's>(
        &self,
        scope: &Scope<'s, E>,
        readers: Vec<R>,
        workers: u8,
        mut seats: Vec<C::Seat>,
    ) -> Result<Driven<C::Seat>, AllocError>
        requires sources { vec_len readers ≤ 8 }
        requires workers { 0 < workers }
        requires seats { vec_len readers + workers ≤ vec_len seats }
        requires fits { All (λ s. C.fits self.now.carrier.now s) seats.items }
        ensures fed { IfOk result
            (λ d. AreFedOf self.now.dialect R.remaining readers.items d.fed.items) }
        ensures served { IfOk result
            (λ d. AreServed (C.fits self.now.carrier.now) self.now.cell.now workers d.served.items) }
    {
        let feeders = self.start_feeders(scope, readers, &mut seats)?;
        let servers = self.start_workers(scope, workers - 1, &mut seats)?;
        let seat = take_seat(self.carrier, &mut seats);
        let last = self.serve_here(seat);
        let fed = thread::join_promised(self.rt, feeders)?;
        let mut served = thread::join_promised(self.rt, servers)?;
        served.push(last)?;
        Ok(Driven { fed, served })
    }

    /// Starts all threads and joins them. Where a growth or a start is refused, the threads that
    /// run are told to end.
    fn drive<E, R: Read + Send + Drop + 's>(
        &self,
        scope: &Scope<'s, E>,
        readers: Vec<R>,
        workers: u8,
        seats: Vec<C::Seat>,
    ) -> Result<Driven<C::Seat>, AllocError>
        requires sources { vec_len readers ≤ 8 }
        requires workers { 0 < workers }
        requires seats { vec_len readers + workers ≤ vec_len seats }
        requires fits { All (λ s. C.fits self.now.carrier.now s) seats.items }
        ensures fed { IfOk result
            (λ d. AreFedOf self.now.dialect R.remaining readers.items d.fed.items) }
        ensures served { IfOk result
            (λ d. AreServed (C.fits self.now.carrier.now) self.now.cell.now workers d.served.items) }
    {
        let driven = self.start_and_join(scope, readers, workers, seats);
        if driven.is_err() {
            self.gate.end_source(self.rt, 0, None);
        }
        driven
    }
}

/// Reads each source by [`feed`] and offers its chunks by so many calls of [`serve`], each call on
/// a thread of its own, and joins all of them.
///
/// There are 1 to 8 sources, their readers in order, at least one worker, and a seat for each
/// thread. What comes back is one answer of a feeder for each source, true of its reader, and one
/// of a worker for each worker, with a note of this cell.
///
/// # Errors
/// `AllocError` where a growth or the start of a thread was refused. The threads that had been
/// started were told to end, and have ended.
pub fn drive<RT: Threads + Wait + Sync, R: Read + Send + Drop, C: Carrier + Sync, G: Gate + Sync>(
    rt: &RT,
    alloc: Global,
    readers: Vec<R>,
    workers: u8,
    carrier: &C,
    seats: Vec<C::Seat>,
    gate: &G,
    cell: &VerdictCell,
) -> Result<Driven<C::Seat>, AllocError>
    requires sources { (0 < vec_len readers) × (vec_len readers ≤ 8) }
    requires workers { 0 < workers }
    requires seats { vec_len readers + workers ≤ vec_len seats }
    requires fits { All (λ s. C.fits carrier.now s) seats.items }
    ensures fed { IfOk result (λ d. AreFedOf plain R.remaining readers.items d.fed.items) }
    ensures served { IfOk result
        (λ d. AreServed (C.fits carrier.now) cell.now workers d.served.items) }
{
    let shared = Shared {
        rt,
        alloc,
        dialect: Dialect::plain(),
        carrier,
        gate,
        cell,
    };
    drive_shared(shared, readers, workers, seats)
}

/// The same as [`drive`], where the sources' rows are of the dialect of what the threads share.
pub(crate) fn drive_shared<
    's,
    RT: Threads + Wait + Sync,
    R: Read + Send + Drop,
    C: Carrier + Sync,
    G: Gate + Sync,
>(
    shared: Shared<'s, RT, C, G>,
    readers: Vec<R>,
    workers: u8,
    seats: Vec<C::Seat>,
) -> Result<Driven<C::Seat>, AllocError>
    requires sources { (0 < vec_len readers) × (vec_len readers ≤ 8) }
    requires workers { 0 < workers }
    requires seats { vec_len readers + workers ≤ vec_len seats }
    requires fits { All (λ s. C.fits shared.carrier.now s) seats.items }
    ensures fed { IfOk result
        (λ d. AreFedOf shared.entry.dialect R.remaining readers.items d.fed.items) }
    ensures served { IfOk result
        (λ d. AreServed (C.fits shared.entry.carrier.now) shared.entry.cell.now workers d.served.items) }
{
    let (rt, alloc, dialect) = (shared.rt, shared.alloc, shared.dialect);
    let (carrier, gate, cell) = (shared.carrier, shared.gate, shared.cell);
    thread::scope(
        thread::scope_env(),
        rt,
        move |scope| -> Result<Driven<C::Seat>, AllocError>
            requires sources { vec_len readers ≤ 8 }
            requires workers { 0 < workers }
            requires seats { vec_len readers + workers ≤ vec_len seats }
            requires fits { All (λ s. C.fits carrier.now s) seats.items }
            ensures fed { IfOk result
                (λ d. AreFedOf dialect R.remaining readers.items d.fed.items) }
            ensures served { IfOk result
                (λ d. AreServed (C.fits carrier.entry.now) cell.entry.now workers d.served.items) }
        {
            let shared = Shared {
                rt,
                alloc,
                dialect,
                carrier,
                gate,
                cell,
            };
            shared.drive(scope, readers, workers, seats)
        },
    )
}
