//! The text of `--help`: what the program does, and all that is needed to write a first trace.

/// What the program does.
pub(crate) const ABOUT: &str = "\
Judges the memory events of a multi-hart RISC-V design by RVWMO, RISC-V's weak
memory model. A trace says which word each event accessed, and which version of
the word it read or wrote. rvmon takes the events one by one for as long as some
global memory order explains them all, and stops at the first one that no order
explains, with the orderings that contradict each other, or that is malformed.";

/// On `FILE`.
pub(crate) const FILES: &str = "\
Traces, at most 8; all events of a hart stand in one of them.{n}\
Standard input is read where no file is named";

/// On `--workers`.
pub(crate) const WORKERS: &str = "Threads that judge several pipes, 1 to 24";

/// On `--slots`.
pub(crate) const SLOTS: &str = "Slots that carry events to them, 2 to 16";

/// On `--model`.
pub(crate) const MODEL: &str = "rvwmo, or tso for total store ordering";

/// On `--json`.
pub(crate) const JSON: &str = "Print the report as one line of JSON";

/// On `--carriers`.
pub(crate) const CARRIERS: &str = "Take rows I, which stand for the events that they list";

/// On `--explain`.
pub(crate) const EXPLAIN: &str = "\
Say behind the report why an event was refused, or what
an allowed trace has exercised";

/// On `--svg`.
pub(crate) const SVG: &str = "Print a picture of the refusal in place of the report";

/// On `--coverage`.
pub(crate) const COVERAGE: &str = "\
Count behind an allowed report what of the model the
trace has exercised";

/// On `--complete`.
pub(crate) const COMPLETE: &str = "\
Allow only whole traces: each ends with a record end,N
that counts its rows, and no load waits";

/// On `--strength`.
pub(crate) const STRENGTH: &str = "\
Tell behind an allowed report how many loads could not
have returned an older version";

/// On `--where`.
pub(crate) const WHERE: &str = "\
Tell where rows come from, by the file ROWS:{n}\
CSV with the header source,row,text";

/// On `--list`.
pub(crate) const LIST: &str = "\
Judge one trace after another. LIST, or standard input
for -, has a line of each: its files, with a tab between
two. A line of JSON tells what each comes to";

/// On the format of a trace, what is printed and the exit status.
pub(crate) const FORMAT: &str = "\
A trace is CSV: this header, and then a row for each event. The rows of a hart
stand in its program order; the rows of several harts may be mixed.

  hart,seq,op,word,read,wrote,ann,deps

  hart   the hart, 0 to 15
  seq    how many events of the hart come before: 0, 1, 2 and so on
  op     what the event does, from the table below
  word   the number of the aligned word that it accesses
  read   the version of the word that it returned; 0 is the initial value
  wrote  the version of the word that it wrote, from 1 on. No two writes of one
         word have the same, and one that took effect later has a higher one
  ann    acquire and release bits; for a fence the two sets that it orders
  deps   the earlier events of the same hart that it depends on

  op   what it is                     word  read  wrote  ann       deps
  L    load                           n     n                      [a]
  S    store                          n           n                [a d]
  LR   load-reserved                  n     n            [A|AR]    [a]
  SC   store-conditional that stored  n           n      [R|AR]    [a d]
  SF   store-conditional that failed  n                  [R|AR]    [a d]
  AMO  atomic memory operation        n     n     n      [A|R|AR]  [a d]
  F    fence                                             p-s
  FT   fence.tso
  BR   branch or indirect jump                                     [c]

n is a number up to 4294967295. What stands in brackets may be left blank, and
what the table leaves empty must be blank. A is acquire, R release, AR both. For
a fence p and s are each r, w or rw: rw-w orders loads and stores before it with
stores behind it. In deps stand up to 8 parts with one space between them, as in
a0 d2: the address depends on event 0 of the hart, the data on event 2. c is for
a branch. Only L, LR, SC, SF and AMO are depended on. With --carriers a row may
also have op I and in deps [d]: what lists it depends on all that it lists.

A file has at most 65536 rows below the header, a hart at most 4096 events. With
rvmon --harts LIST neither is limited: rvmon --harts --help tells more.
With --complete, and only then, its last line may be end,N: N rows stand above.

Example: two harts each store to a word, fence, and load the other's word, and
both loads return the initial value.

  hart,seq,op,word,read,wrote,ann,deps
  0,0,S,0,,1,,
  0,1,F,,,,rw-rw,
  0,2,L,1,0,,,
  1,0,S,1,,1,,
  1,1,F,,,,rw-rw,
  1,2,L,0,0,,,

RVWMO forbids this. With these lines in sb.csv, rvmon sb.csv prints:

  forbidden: h1:2 after 5 events
  circle of 4
  h1:2 from-read h0:0
  h0:0 rule 4 h0:2
  h0:2 from-read h1:0
  h1:0 rule 4 h1:2

The report is one of these three. An ID such as h1:2 is the event of hart 1,
seq 2.

  allowed: E events, O operations, W waiting loads
      Some order explains the E events, O of which are loads or stores. A load
      waits where the store whose version it returned is not in the trace.
  forbidden: ID after N events
      No order explains event ID after the N events before it. A circle follows,
      in each line of which the first event has to come before the second by a
      rule of preserved program order (1 to 13), coherence, reads-from,
      from-read, atomic-in or atomic-out. Or one line follows,
      stale: ID reads below ID: a load returned less than its hart had stored.
  malformed: ID after N events: fault F TEXT
      Event ID cannot follow the N events before it; TEXT says why.

A source that is not in the format is told on standard error instead:

  rvmon: source S row R: trace fault N
      Sources count from 0. Row 0 is the header. N is 1 header, 2 not 8 fields,
      3 no number or too large, 4 op, 5 field missing, 6 field not blank, 7 ann,
      8 deps, 9 more than 8 deps, 10 too many rows, 12 reading, 13 memory.

Exit status:
  0  allowed, or help
  1  forbidden
  2  malformed, a source that is not in the format, or wrong arguments
  3  a source or report that cannot be opened, read or written, or no memory
  4  with --complete: allowed, but a line incomplete: TEXT says what is missing";
