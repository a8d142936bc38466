//! Huffman tables (T.81, B.2.4.2).
//!
//! A payload holds tables one after the other until it ends. Each has a byte with its class Tc in the high half, 0 for
//! DC and 1 for AC, and its destination Th in the low half; then sixteen counts, of the codes of 1 to 16 bits, and a
//! symbol for each code.

ghost use Rattle.std.specs.Prelude.{◌≡◌, ◌<◌, ◌≤◌, ◌+◌, ◌++◌, ◌/◌, ◌%◌, ℕ, List, length, drop, take, sum, OnOk, IfOk};
ghost use Rattle.jr_segments.specs.Bytes.{high, low};
ghost use Rattle.jr_segments.specs.Tests.{Obeys};
ghost use Rattle.jr_segments.specs.HuffmanTables.{HuffmanTable, huffman_table, huffman_tables, huffman_table_len, huffman_table_tests, huffman_tables_tests, DefinesHuffmanTables};

use crate::refusal::Refusal;
use jr_base::marker::DHT;
use jr_code::{CodeFault, CodeTable, word_count};
use std::alloc::Global;

/// A code table with its class and its destination.
#[derive(Drop)]
pub struct HuffmanTable {
    /// Tc: 0 for DC, 1 for AC.
    pub class: u8,
    /// Th.
    pub destination: u8,
    pub table: CodeTable,
}

/// Returns the sixteen counts.
fn counts_of(bytes: &[u8]) -> [u8; 16]
    requires { 16 ≤ length bytes.now }
    ensures { result ≡ take 16 bytes.now }
{
    let mut counts = [0; 16];
    counts.copy_from_slice(&bytes[..16]);
    counts
}

/// Reads the table that a byte begins, and returns it with the bytes after it.
///
/// # Errors
///
/// In this order: `BadCodeTable` if Tc is over 1 or Th over 3; `BadLength` if counts are missing; `BadCodeTable` for
/// more than 256 codes; `BadLength` if symbols are missing; `BadCodeTable` if the codes do not fit into a tree.
#[tactic(auto, unfolding(crate::specs::HuffmanTables::huffman_table_tests))]
fn read_huffman_table(
    alloc: Global,
    head: u8,
    bytes: &[u8],
) -> Result<(HuffmanTable, &[u8]), Refusal>
    ensures obeys { Obeys result (huffman_table_tests (head, bytes.now)) }
    ensures class { IfOk result (λ t. t.0.class < 2) }
    ensures destination { IfOk result (λ t. t.0.destination < 4) }
    ensures table { IfOk result (λ t. t.0 ≡ huffman_table (head, bytes.now)) }
    ensures rest { IfOk result (λ t. t.1.now ≡ drop (huffman_table_len bytes.now) bytes.now) }
{
    let class = head / 16;
    let destination = head % 16;
    if class > 1 || destination > 3 {
        return Err(Refusal::BadCodeTable);
    }
    if bytes.len() < 16 {
        return Err(Refusal::BadLength(DHT));
    }
    let counts = counts_of(bytes);
    let count = word_count(&counts) as usize;
    if count > 256 {
        return Err(Refusal::BadCodeTable);
    }
    if bytes.len() < 16 + count {
        return Err(Refusal::BadLength(DHT));
    }
    let (front, rest) = bytes.split_at(16 + count);
    let (_, symbols) = front.split_at(16);
    match CodeTable::with_symbols(alloc, &counts, symbols) {
        Ok(table) => Ok((
            HuffmanTable {
                class,
                destination,
                table,
            },
            rest,
        )),
        Err(CodeFault::Memory) => Err(Refusal::Memory),
        Err(_) => Err(Refusal::BadCodeTable),
    }
}

/// Stores each table of a DHT payload at its destination.
///
/// # Errors
///
/// Those of `read_huffman_table`, for the first table that has one.
pub fn define_huffman_tables(
    alloc: Global,
    dc: &mut [Option<CodeTable>; 4],
    ac: &mut [Option<CodeTable>; 4],
    payload: &[u8],
) -> Result<(), Refusal>
    ensures obeys { Obeys result (huffman_tables_tests payload.now) }
    ensures dc { OnOk result (DefinesHuffmanTables payload.now 0 dc.old dc.new) }
    ensures ac { OnOk result (DefinesHuffmanTables payload.now 1 ac.old ac.new) }
{
    let mut rest = payload;
    while let [head, further @ ..] = rest {
        let (huffman_table, after) = read_huffman_table(alloc, *head, further)?;
        let place = usize::from(huffman_table.destination);
        if huffman_table.class == 0 {
            dc[place] = Some(huffman_table.table);
        } else {
            ac[place] = Some(huffman_table.table);
        }
        rest = after;
    }
    Ok(())
}
