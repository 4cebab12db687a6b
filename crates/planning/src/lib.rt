// The plan of a question: its texts are read, its columns chosen, its rows withdrawn and its queries put.
#![tactic(auto)]

use answer_lines::plan::Plan;
use asked_queries::put_queries;
use asked_table::reading::Sheet;
use asked_table::{Chosen, choose_said, read_text};
use asked_texts::{read_texts, second_of, withdraw_said};
use asking::Question;
use asking::pieces::{bytes_of, part};
use limits::{Params, Refusal};
use queries::{QUERY_ROOM, product};
use statuses::Status;
use std::io::Input;
use std::rt::Files;
use telling::{refuse, say_asked_wrong, tells};

// A table that is made: the text as it was read, and the columns that were chosen.
#[derive(Clone, Copy)]
pub struct Made {
    pub sheet: Sheet,
    pub chosen: Chosen,
}

// Makes the table: the text is read into it, and its columns are chosen. Else gives the status.
fn make_table(
    words: &[u8],
    q: Question,
    err: i32,
    text: &[u8],
    table: &mut [u16],
) -> Result<Made, Status> {
    let sheet = read_text(words, q, err, text, table)?;
    let chosen = choose_said(words, q, err, sheet, text, table)?;
    Ok(Made { sheet, chosen })
}

// The plan for the rows of a table that is made; the queries are put. Else gives the status.
fn plan_rows(
    words: &[u8],
    q: Question,
    out: i32,
    err: i32,
    made: Made,
    text: &[u8],
    table: &[u16],
    starts: &mut [u32],
    queries: &mut [u16],
) -> Result<Plan, Status> {
    let Made { sheet, chosen } = made;
    let k = chosen.choice.k;
    let n = sheet.reader.rows;
    if Params::MOST_COLUMNS < k {
        return Err(refuse(err, Refusal::Columns.number()));
    }
    if Params::MOST_ROWS < n {
        return Err(refuse(err, Refusal::Rows.number()));
    }
    let used = product(k, n);
    if table.len() < used || queries.len() != QUERY_ROOM {
        return Err(refuse(err, Refusal::Room.number()));
    }
    let Some(count) = put_queries(
        err,
        q.way,
        bytes_of(words, q.what),
        sheet,
        chosen.circles,
        chosen.choice,
        text,
        table,
        starts,
        queries,
    ) else {
        return Err(Status::AskedWrongly);
    };
    Ok(Plan {
        out,
        err,
        way: q.way,
        number: q.number,
        by_distance: q.by_distance,
        count: q.count,
        csv: q.csv,
        lines: q.lines,
        length: text.len(),
        from: sheet.from,
        names: sheet.names,
        label: sheet.reader.label,
        circles: chosen.circles,
        k,
        n,
        used,
        queries: count,
        asked: product(k, count),
    })
}

// The plan of a question about a text; the second text says which rows are withdrawn. Else gives the status.
fn plan_text(
    words: &[u8],
    q: Question,
    out: i32,
    err: i32,
    text: &[u8],
    second: &[u8],
    table: &mut [u16],
    starts: &mut [u32],
    queries: &mut [u16],
    struck: &mut [u32],
) -> Result<Plan, Status> {
    let made = make_table(words, q, err, text, table)?;
    withdraw_said(words, q, err, second, made.sheet.reader.rows, struck)?;
    plan_rows(words, q, out, err, made, text, table, starts, queries)
}

// The question that the words ask; what is wrong with them is said. Else gives the status.
fn question_of(words: &[u8], err: i32) -> Result<Question, Status> {
    match asking::ask(words) {
        Ok(q) => Ok(q),
        Err(wrong) => {
            say_asked_wrong(err, words, wrong);
            Err(Status::AskedWrongly)
        }
    }
}

// The plan of a question by its words, each ended by a zero byte: answers go to one file, all else to another. The texts are read, the table is made,
// the queries are put and the rows are struck that are withdrawn. Where there is no plan, all is said, and the status is given that the program ends with.
pub fn plan_question<R: Files + Input>(
    rt: &R,
    words: &[u8],
    out: i32,
    err: i32,
    text: &mut [u8],
    table: &mut [u16],
    starts: &mut [u32],
    queries: &mut [u16],
    struck: &mut [u32],
) -> Result<Plan, Status> {
    if tells(words, out) {
        return Err(Status::Answered);
    }
    let q = question_of(words, err)?;
    let texts = read_texts(rt, words, q, err, text)?;
    plan_text(
        words,
        q,
        out,
        err,
        part(text, 0, texts.length),
        second_of(text, texts.length, texts.second),
        table,
        starts,
        queries,
        struck,
    )
}
