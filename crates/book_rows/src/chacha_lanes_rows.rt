//! Mask words made eight at a time, compared with those made one by one.

use crate::fixtures::{check_all, check_same};
use chacha_lanes::{WordRow, block_words_of_rounds, stream_blocks, stream_word, words_of_rounds};

fn key_ending_in(last: u8) -> [u8; 32] {
    let mut key = [0; 32];
    key[31] = last;
    key
}

// The key ends in this byte, and its other bytes are 0. The words are published with RFC 8439 (A.1) and with the
// ChaCha20 of TLS drafts, whose stream number has 64 bits.
#[test]
fn published_words(rt: HostRuntime) {
    let rows = [
        (0, 0, 0x903d_f1a0_ade0_b876),
        (1, 0, 0x96b2_1f9f_5af0_4045),
        (0, 1, 0xfb78_15c6_d6df_3fef),
    ];
    for (last, round, word) in rows {
        let key = key_ending_in(last);
        let mut row = WordRow::new(round);
        row.put(&key);
        row.put(&key);
        check_all(&rt, &row.words(), &[word, word], "a row");
        check_same(&rt, &stream_word(&key, round), &word, "a word");
    }
}

// Words that look random, and the same at each run.
fn next_word(seed: u64) -> u64 {
    let mixed = (seed ^ (seed >> 31)).wrapping_mul(0x9e37_79b9_7f4a_7c15);
    (mixed ^ (mixed >> 29)).wrapping_add(0xbf58_476d_1ce4_e5b9)
}

fn key_of(number: u64) -> [u8; 32] {
    let mut key = [0; 32];
    let mut word = number;
    for place in 0..32 {
        word = next_word(word);
        key[place] = (word >> 56) as u8;
    }
    key
}

#[test]
fn rows_of_0_to_40_keys_as_one_by_one(rt: HostRuntime) {
    for count in 0..41 {
        let round = (next_word(count) >> 32) as u32;
        let mut row = WordRow::new(round);
        for number in 0..count {
            row.put(&key_of(64 * count + number));
        }
        let words = row.words();
        check_same(&rt, &(words.len() as u64), &count, "the number of words");
        for number in 0..count {
            let word = stream_word(&key_of(64 * count + number), round);
            check_same(
                &rt,
                &words.get(number as usize).copied(),
                &Some(word),
                "a word of a row",
            );
        }
    }
}

// The published words are those of `published_words` for the key of zeros.
#[test]
fn eight_rounds_as_one_by_one(rt: HostRuntime) {
    let published = words_of_rounds(&key_ending_in(0), 0);
    check_all(
        &rt,
        &published[..2],
        &[0x903d_f1a0_ade0_b876, 0xfb78_15c6_d6df_3fef],
        "published words",
    );
    for number in 0..40 {
        let key = key_of(number);
        let first = (next_word(number) >> 33) as u32;
        let words = words_of_rounds(&key, first);
        for round in 0..8u32 {
            let word = stream_word(&key, first + round);
            check_same(&rt, &words[round as usize], &word, "a word of a round");
        }
    }
}

// The block of the key of zeros in round 0 (RFC 8439, A.1), as words of 64 bits.
#[test]
fn published_block(rt: HostRuntime) {
    let words = [
        0x903d_f1a0_ade0_b876,
        0x28bd_8653_e56a_5d40,
        0x1aed_8da0_b819_d2bd,
        0xc70d_778b_ccef_36a8,
        0x8d48_5751_7c59_41da,
        0x374a_d8b8_3fe0_2477,
        0x1ca1_1815_f4b8_436a,
        0x8665_eeb2_69b6_87c3,
    ];
    for block in stream_blocks(&[[0; 32]; 8], 0) {
        check_all(&rt, &block, &words, "a block");
    }
    for place in 0..8 {
        let rounds = block_words_of_rounds(&[0; 32], 0, place);
        check_same(&rt, &rounds[0], &words[place], "a word of a block");
    }
}
