//! The arguments of collectives, by their words.

ghost use Rattle.std.specs.Prelude.{◌≡◌, ◌<◌, ◌≤◌, ◌+◌, pos, length, slice_index};
ghost use Rattle.mpi_types.specs.declared.collective.Collective.TheVariants as kinds;
ghost use Rattle.mpi_rules.specs.Places as places;
ghost use Rattle.mpi_rules.specs.Collectives as collective_words;
ghost use Rattle.mpi_call.specs.Counts.{words_of};

use crate::joining::{elements_from, no_elements, plain_args};
use crate::numbers::int_at;
use mpi_rules::{CollectiveArgs, Elements};
use mpi_types::{COMM_WORLD, Collective};

/// Elements of which an address and the count and the datatype behind it are told.
fn elements_at(words: &[u64], address: usize, i: usize) -> Elements
    requires address { address < length words.now }
    requires rest { i + 1 < length words.now }
    ensures { result ≡ collective_words.elements (slice_index words.now address) (places.int_at words.now i) (places.int_at words.now (i + 1)) }
{
    Elements {
        address: words[address],
        count: int_at(words, i),
        datatype: int_at(words, i + 1),
    }
}

/// Those of a reduction, which sends from the first address and receives at the second, as many elements.
fn reduction_args(kind: Collective, words: &[u64]) -> CollectiveArgs
    requires { 5 ≤ length words.now }
    ensures { result ≡ collective_words.reduction_args kind words.now (pos 0) }
{
    CollectiveArgs {
        operation: int_at(words, 4),
        ..plain_args(kind, elements_at(words, 0, 2), elements_at(words, 1, 2))
    }
}

/// Those of a collective that says for itself what is sent and what is received.
fn paired_args(kind: Collective, words: &[u64]) -> CollectiveArgs
    requires { 6 ≤ length words.now }
    ensures { result ≡ collective_words.plain_args kind (collective_words.elements_from words.now 0) (collective_words.elements_from words.now 3) (pos 0) }
{
    plain_args(kind, elements_from(words, 0), elements_from(words, 3))
}

/// Those of a collective that sends and receives nothing.
fn bare_args(kind: Collective) -> CollectiveArgs
    ensures { result ≡ collective_words.plain_args kind collective_words.no_elements collective_words.no_elements (pos 0) }
{
    plain_args(kind, no_elements(), no_elements())
}

fn broadcast_args(words: &[u64]) -> CollectiveArgs
    requires { 5 ≤ length words.now }
    ensures { result ≡ collective_words.collective_args kinds.Bcast words.now }
{
    CollectiveArgs {
        root: int_at(words, 3),
        comm: int_at(words, 4),
        ..plain_args(
            Collective::Bcast,
            elements_from(words, 0),
            elements_from(words, 0),
        )
    }
}

fn split_args(words: &[u64]) -> CollectiveArgs
    requires { 4 ≤ length words.now }
    ensures { result ≡ collective_words.collective_args kinds.CommSplit words.now }
{
    CollectiveArgs {
        colour: int_at(words, 1),
        key: int_at(words, 2),
        comm: int_at(words, 0),
        made: words[3],
        ..bare_args(Collective::CommSplit)
    }
}

/// The arguments of the call, by its words.
pub fn collective_args(kind: Collective, words: &[u64]) -> CollectiveArgs
    requires { words_of kind ≤ length words.now }
    ensures { result ≡ collective_words.collective_args kind words.now }
{
    match kind {
        Collective::Barrier => CollectiveArgs {
            comm: int_at(words, 0),
            ..bare_args(kind)
        },
        Collective::Bcast => broadcast_args(words),
        Collective::Reduce => CollectiveArgs {
            root: int_at(words, 5),
            comm: int_at(words, 6),
            ..reduction_args(kind, words)
        },
        Collective::Allreduce => CollectiveArgs {
            comm: int_at(words, 5),
            ..reduction_args(kind, words)
        },
        Collective::Scan => CollectiveArgs {
            comm: int_at(words, 5),
            ..reduction_args(kind, words)
        },
        Collective::Gather => CollectiveArgs {
            root: int_at(words, 6),
            comm: int_at(words, 7),
            ..paired_args(kind, words)
        },
        Collective::Scatter => CollectiveArgs {
            root: int_at(words, 6),
            comm: int_at(words, 7),
            ..paired_args(kind, words)
        },
        Collective::Allgather => CollectiveArgs {
            comm: int_at(words, 6),
            ..paired_args(kind, words)
        },
        Collective::Alltoall => CollectiveArgs {
            comm: int_at(words, 6),
            ..paired_args(kind, words)
        },
        Collective::CommDup => CollectiveArgs {
            comm: int_at(words, 0),
            made: words[1],
            ..bare_args(kind)
        },
        Collective::CommSplit => split_args(words),
        Collective::Migrate => CollectiveArgs {
            comm: COMM_WORLD,
            ..bare_args(kind)
        },
    }
}
