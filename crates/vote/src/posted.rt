// The news of no word, and of one.
ghost use Rattle.std.specs.Prelude.{◌≡◌, ◌≤◌};
ghost use Rattle.vote.specs.Limits.{max_characters, max_kind, KindUpTo};
ghost use Rattle.vote.specs.News.{no_news, one_word};

use crate::{KINDS, News};

impl News {
    pub fn none() -> News
        ensures { result ≡ no_news }
    {
        News { kinds: [0; KINDS] }
    }

    // The kind is a number, as in a Vote.
    pub fn one(kind: u8, value: u8) -> News
        requires kind { KindUpTo max_kind kind }
        requires value { value ≤ max_characters }
        ensures { result ≡ one_word kind value }
    {
        let mut news = News::none();
        news.kinds[kind as usize - 1] = 1 << value;
        news
    }
}
