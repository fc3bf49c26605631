// What spans the layers: document 01's examples, computed from the definitions of four crates; the gate against `decide_egress`, and calls
// at the edges of its rules; what is promised of listings; there and back of the images for C, from the contracts of `export` alone; and
// where each law stands. There is no code here: what no edit of a lower crate needs is proved once, above it.
//
// The laws, by name:
//
// - Numbers, over the width. `octets/proofs/OctetsLaws.antt`: a number is back from its octets and octets from their number
//   (`le-le_bytes`, `le_bytes-le`, `be-be_bytes`, `be_bytes-be`), and a number of n + m octets is two numbers side by side (`le_parts`,
//   `be-parts`, `put-parts`, `put-parts-be`).
// - Codecs, over the record. Stated in `codec/specs/Promises.antt`: what a decoder accepts, an encoder writes again, and only sound records
//   are given (`Accepted`); what an encoder wrote, a decoder takes (`Kept`); an unsound record is given for no bytes (`Never`); what a
//   constructor gives is sound (`Constructed`). Each record has the four under its own name: `current-laws`, `mutation-laws`, `key_laws`,
//   `entry-laws`, `cookie-value-laws`, `config-laws`, `inspection-laws`. Bytes decode exactly if no field is at fault (`told` in
//   `codec/proofs/CodecLaws.antt`).
// - Uniqueness. `Unique.antt` in each crate's `proofs`: the answer of every public function is its contract's alone
//   (`FUNCTION-determined`, `RECORD-FUNCTION-determined`), and no two cases of an enum have one number (`decision-injective`,
//   `disposition-injective`, `slot-injective`).
// - Reading a packet. Stated in `packet/specs/Promises.antt`: 0 to 4 headers are passed (`count-at-most-4` in `packet/proofs/Count.antt`),
//   and the sorting of the next-header value covers each of 256 values once (`sorted-once` in `Sorting.antt`).
// - The gate. Stated in `gate/specs/Promises.antt`: the first rule that applies answers (`first-that-applies`, `some-rule-applies`,
//   `rule-answers` in `gate/proofs/Rules.antt`), the rules bear 01's numbers in 01's order (`numbered-in-order`), and the header count is at
//   most 4 (`count-at-most-4`). A record that is found has forty bytes and stands under the key (`first_found` in
//   `table/proofs/TableLaws.antt`). Stated
//   in `laws/specs/Calls.antt`: each of the thirteen answers some call, and calls at the rules' edges (`every-rule-answers`, `edges-hold`
//   in `laws/proofs/Calls.antt`). Wherever the bytes decode the gate is `decide_egress` (`is-decide-egress` in `DecidedLaw.antt`, stated in
//   `laws/specs/Decided.antt`).
// - Isolation, demand 3. Stated in `isolation/specs/Isolation.antt`: a packet's answer depends on its named places alone
//   (`isolated-reading` in `isolation/proofs/Reading.antt`); alike calls have one view (`same_view` in `Calls.antt`), so the same rule answers
//   (`isolated-rule`) with the same answer (`isolated`). Stated in `isolation/specs/Pinned.antt`: the places of some packets, A among them, and
//   that none can be left out (`places-pinned`, `none-left-out` in `Pinned.antt`). Two calls that it is about, and the gate that drops all,
//   which is isolated and refused: `alike`, `drops-all-is-isolated`, `drops-all-is-refused` in `laws/proofs/Calls.antt`.
// - The listing. Stated in `laws/specs/Listings.antt`: one line for each packet (`lines-then-last`, `one-line-each` in
//   `laws/proofs/EachLine.antt`), earlier lines stay (`earlier-calls-stay`, `earlier-lines-stay`, `earlier-listing-stays` in `Earlier.antt`),
//   isolation (`isolated-line`, `isolated-sheet`, `isolated-listing` in `Alike.antt`); in `laws/specs/Bundles.antt`: 01's case and the edges
//   of frames (`case-listed`, `edges-listed` in `Bundles.antt`). Stated in `listing/specs/Promises.antt`: no listing is longer than the judge's
//   output (`no_longer` in `listing/proofs/Bound.antt`); in `text/specs/Promises.antt`: numbers read back (`decimals-read-back` in
//   `text/proofs/Digits.antt`).
// - Images for C. Stated in `laws/specs/Images.antt`: what decoding gives, encoding takes back to the same bytes, and the other way round
//   (`seven-rounds` in `laws/proofs/RoundTrips.antt`, a field for each record).
// - Examples. `examples-hold` in `laws/proofs/Examples.antt`, stated in `laws/specs/Examples.antt`: the list that document 01 asks to be
//   proved.
#![tactic(auto)]
