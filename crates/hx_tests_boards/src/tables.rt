// Tables of a few words: filled, refused another, emptied, and laid over a store. And the place of a word among others.

use hx_buffer::buffer::WriteBuffer;
use hx_marks::find_tag;
use hx_marks::marks::{Entry, Full, Marks};
use std::alloc::{AllocError, Global};
use std::process::Abort;

fn buffer_for(rt: &impl Abort, alloc: Global, room: usize) -> WriteBuffer {
    match WriteBuffer::with_capacity(alloc, room) {
        Ok(buffer) => buffer,
        Err(_) => panic!(rt; "no memory"),
    }
}

fn marks_for(rt: &impl Abort, alloc: Global, room: usize) -> Marks {
    match Marks::with_capacity(alloc, room) {
        Ok(marks) => marks,
        Err(_) => panic!(rt; "no memory"),
    }
}

fn puts(
    rt: &impl Abort,
    buffer: &mut WriteBuffer,
    word: u32,
    value: i32,
    wanted: Result<(), Full>,
) {
    assert_eq!(rt; buffer.put(word, value), wanted);
}

fn marks_so(rt: &impl Abort, marks: &mut Marks, word: u32, value: i32, wanted: Result<(), Full>) {
    assert_eq!(rt; marks.mark(word, value), wanted);
}

// These and no others, in this order.
fn marks_are(rt: &impl Abort, marks: &Marks, wanted: &[Entry]) {
    assert_eq!(rt; marks.len(), wanted.len());
    for place in 0..marks.len() {
        assert_eq!(rt; Some(marks.at(place)), wanted.get(place).copied());
    }
}

// Laid over a store, it comes to this, and the buffer is empty.
fn drains(rt: &impl Abort, buffer: &mut WriteBuffer, store: &mut [i32], wanted: &[i32]) {
    buffer.drain_into(store);
    assert!(rt; *store == *wanted);
    assert_eq!(rt; buffer.len(), 0);
}

// What is marked of a word.
fn marked(rt: &impl Abort, marks: &Marks, word: u32, wanted: Option<i32>) {
    assert_eq!(rt; marks.get(word), wanted);
}

fn writes_one(rt: &impl Abort, buffer: &WriteBuffer, wanted: Entry) {
    assert_eq!(rt; buffer.len(), 1);
    assert_eq!(rt; buffer.at(0), wanted);
}

// What is written of three words.
fn written(buffer: &WriteBuffer) -> [Option<i32>; 3] {
    [buffer.get(0), buffer.get(2), buffer.get(3)]
}

#[test]
fn two_words_are_laid_over_a_store(rt: HostRuntime) {
    let mut buffer = buffer_for(&rt, rt.alloc(), 2);
    puts(&rt, &mut buffer, 3, 6, Ok(()));
    puts(&rt, &mut buffer, 0, -1, Ok(()));
    puts(&rt, &mut buffer, 2, 8, Err(Full));
    puts(&rt, &mut buffer, 3, 5, Ok(()));
    assert_eq!(rt; written(&buffer), [Some(-1), None, Some(5)]);
    let mut store = [10, 11, 12, 13];
    drains(&rt, &mut buffer, &mut store, &[-1, 11, 12, 5]);
    puts(&rt, &mut buffer, 2, 8, Ok(()));
}

#[test]
fn what_is_cleared_is_not_written(rt: HostRuntime) {
    let mut buffer = buffer_for(&rt, rt.alloc(), 1);
    puts(&rt, &mut buffer, 1, 7, Ok(()));
    writes_one(&rt, &buffer, Entry { word: 1, value: 7 });
    buffer.clear();
    drains(&rt, &mut buffer, &mut [10, 11], &[10, 11]);
}

#[test]
fn words_beyond_the_store_are_dropped(rt: HostRuntime) {
    let mut buffer = buffer_for(&rt, rt.alloc(), 2);
    puts(&rt, &mut buffer, 2, 7, Ok(()));
    puts(&rt, &mut buffer, 1, 8, Ok(()));
    drains(&rt, &mut buffer, &mut [10, 11], &[10, 8]);
}

const FOUR: Entry = Entry { word: 4, value: -2 };

const SEVEN: Entry = Entry { word: 7, value: 3 };

#[test]
fn two_words_fill_marks_of_two(rt: HostRuntime) {
    let mut marks = marks_for(&rt, rt.alloc(), 2);
    marked(&rt, &marks, 7, None);
    marks_so(&rt, &mut marks, 7, 1, Ok(()));
    marks_so(&rt, &mut marks, 4, -2, Ok(()));
    marks_so(&rt, &mut marks, 5, 0, Err(Full));
    marks_so(&rt, &mut marks, 7, 3, Ok(()));
    marked(&rt, &marks, 4, Some(-2));
    marked(&rt, &marks, 5, None);
    marked(&rt, &marks, 7, Some(3));
    marks_are(&rt, &marks, &[FOUR, SEVEN]);
}

#[test]
fn emptied_marks_have_their_room_again(rt: HostRuntime) {
    let mut marks = marks_for(&rt, rt.alloc(), 1);
    marks_so(&rt, &mut marks, 7, 3, Ok(()));
    marks.clear();
    marked(&rt, &marks, 7, None);
    marks_so(&rt, &mut marks, 4, -2, Ok(()));
    marks_are(&rt, &marks, &[FOUR]);
}

#[test]
fn marks_without_room_are_full(rt: HostRuntime) {
    let mut marks = marks_for(&rt, rt.alloc(), 0);
    marks_so(&rt, &mut marks, 0, 0, Err(Full));
}

// So many words, no two of which are the same, and none of which is 1; they fall.
fn words_without_1(alloc: Global, count: u32) -> Result<Vec<u32>, AllocError> {
    let mut words = Vec::new(alloc);
    for k in 0..count {
        words.push(1_000_000u32.wrapping_sub(k.wrapping_mul(7)))?;
    }
    Ok(words)
}

fn words_for(rt: &impl Abort, alloc: Global, count: u32) -> Vec<u32> {
    match words_without_1(alloc, count) {
        Ok(words) => words,
        Err(_) => panic!(rt; "no memory"),
    }
}

// The first place of a word among others.
fn is_at(rt: &impl Abort, words: &[u32], word: u32, place: Option<usize>) {
    assert_eq!(rt; find_tag(words, word), place);
}

fn finds(rt: &impl Abort, words: &[u32], place: usize) {
    assert!(rt; place < words.len());
    is_at(rt, words, words[place], Some(place));
}

#[test]
fn each_of_up_to_64_words_is_found(rt: HostRuntime) {
    for count in 0..65 {
        let words = words_for(&rt, rt.alloc(), count);
        for place in 0..words.len() {
            finds(&rt, &words, place);
        }
        is_at(&rt, &words, 1, None);
    }
}

#[test]
fn first_and_last_of_4096_words_are_found(rt: HostRuntime) {
    let words = words_for(&rt, rt.alloc(), 4096);
    for place in [0, 15, 16, 4080, 4095] {
        finds(&rt, &words, place);
    }
    is_at(&rt, &words, 1, None);
}

#[test]
fn least_of_several_places_is_told(rt: HostRuntime) {
    let mut words = [3; 35];
    is_at(&rt, &words, 3, Some(0));
    words[33] = 4;
    words[34] = 4;
    is_at(&rt, &words, 4, Some(33));
    words[18] = 4;
    words[31] = 4;
    is_at(&rt, &words, 4, Some(18));
}

// Marks of so many words in an order that neither rises nor falls, each with its own value; then each is read.
#[test]
fn marks_of_100_words_keep_each_value(rt: HostRuntime) {
    let mut marks = marks_for(&rt, rt.alloc(), 100);
    for k in 0u8..100 {
        let word = u32::from(k) * 37 % 100;
        marks_so(&rt, &mut marks, word, i32::from(k), Ok(()));
    }
    marks_so(&rt, &mut marks, 100, 0, Err(Full));
    for k in 0u8..100 {
        marked(&rt, &marks, u32::from(k) * 37 % 100, Some(i32::from(k)));
    }
    marked(&rt, &marks, 100, None);
}
